//! Completions for fish: a line for each command, option and value.
use crate::outline::{Value, command_names, has_value, value_of, words_of};
use clap::{Arg, Command};
use std::alloc::{AllocError, Global};

/// What stands before all: no files, unless a line asks for them.
const HEAD: &str = "# Completions of amo for fish, as `amo completions fish` prints them.

complete -c amo -f
";

/// Where no command was given yet.
const AT_FIRST: &str = "__fish_use_subcommand";

/// The script.
pub(super) fn script(alloc: Global, whole: &Command<'_>) -> Result<String, AllocError> {
    let commands = command_names(alloc, whole, " ")?;
    let mut script = String::from_str(alloc, HEAD)?;
    push_arguments(alloc, &mut script, whole, AT_FIRST, commands.as_str())?;
    for command in whole.get_subcommands() {
        let name = command.get_name();
        write!(script, "\ncomplete -c amo -n '{AT_FIRST}' -a {name}")?;
        push_help(&mut script, command.get_about())?;
        let behind = format!(in alloc; "__fish_seen_subcommand_from {name}")?;
        push_arguments(
            alloc,
            &mut script,
            command,
            behind.as_str(),
            commands.as_str(),
        )?;
    }
    Ok(script)
}

/// The lines of a command's arguments, which are offered where this condition holds.
fn push_arguments(
    alloc: Global,
    script: &mut String,
    command: &Command<'_>,
    condition: &str,
    commands: &str,
) -> Result<(), AllocError> {
    for argument in command.get_arguments() {
        write!(script, "complete -c amo -n '{condition}'")?;
        if let Some(short) = argument.get_short() {
            write!(script, " -s {short}")?;
        }
        if let Some(long) = argument.get_long() {
            write!(script, " -l {long}")?;
        }
        if has_value(argument) {
            push_value(alloc, script, argument, commands)?;
        }
        push_help(script, argument.get_help())?;
    }
    Ok(())
}

/// What the value of an argument is: `-r` of an option says that it has one, and `-F` that it is a file.
fn push_value(
    alloc: Global,
    script: &mut String,
    argument: &Arg<'_>,
    commands: &str,
) -> Result<(), AllocError> {
    if !argument.is_positional() {
        script.push_str(" -r")?;
    }
    match value_of(alloc, argument)? {
        Value::Name(names) => {
            let names = words_of(alloc, names)?;
            write!(script, " -f -a '{names}'")
        }
        Value::Command => write!(script, " -f -a '{commands}'"),
        Value::File => script.push_str(" -F"),
        Value::Other => script.push_str(" -f"),
    }
}

/// The end of a line, with what help says.
fn push_help(script: &mut String, help: Option<&str>) -> Result<(), AllocError> {
    script.push_str(" -d '")?;
    for letter in help.unwrap_or("").chars() {
        if letter == '\'' || letter == '\\' {
            script.push('\\')?;
        }
        script.push(letter)?;
    }
    script.push_str("'\n")
}
