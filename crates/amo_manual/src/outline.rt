//! What is read off the program's commands, as they are described to `clap`: for its manual page and for completions.
use amo_arguments::command;
use clap::builder::ValueParser;
use clap::{Arg, ArgAction, Command};
use std::alloc::{AllocError, Global};

/// What the value of an argument is.
#[derive(Clone, Copy)]
pub(crate) enum Value<'a> {
    /// One of these names.
    Name(&'a [&'a str]),
    /// The path of a file.
    File,
    /// The name of a command.
    Command,
    /// Any other.
    Other,
}

/// The whole program, with what `clap` adds: help and version, and the command that gives help.
pub(crate) fn whole<'a>(alloc: Global) -> Result<Command<'a>, AllocError> {
    let mut whole = command(alloc)?;
    whole.build()?;
    Ok(whole)
}

/// Whether an argument has a value, as flags have not.
pub(crate) fn has_value(argument: &Arg<'_>) -> bool {
    matches!(argument.get_action(), ArgAction::Set | ArgAction::Append)
}

/// What the value of this argument is. `clap` tells the name of a value only where it shows the argument, as `--journal <FILE>`.
pub(crate) fn value_of<'a>(alloc: Global, argument: &Arg<'a>) -> Result<Value<'a>, AllocError> {
    if let ValueParser::Names(names) = argument.get_value_parser() {
        return Ok(Value::Name(names));
    }
    let text = argument.to_string(alloc)?;
    let shown = text.as_str();
    if shown.contains("<FILE>") || shown.contains("[FILE]") {
        return Ok(Value::File);
    }
    if shown.contains("[COMMAND]") {
        return Ok(Value::Command);
    }
    Ok(Value::Other)
}

/// The names of the commands, with this text between any two.
pub(crate) fn command_names(
    alloc: Global,
    whole: &Command<'_>,
    between: &str,
) -> Result<String, AllocError> {
    let mut names = String::new(alloc);
    for command in whole.get_subcommands() {
        push_next(&mut names, between, command.get_name())?;
    }
    Ok(names)
}

/// These names, with a space between any two.
pub(crate) fn words_of(alloc: Global, names: &[&str]) -> Result<String, AllocError> {
    let mut words = String::new(alloc);
    for name in names {
        push_next(&mut words, " ", name)?;
    }
    Ok(words)
}

/// The options of a command, each by its short and its long name, with a space between any two.
pub(crate) fn option_names(alloc: Global, command: &Command<'_>) -> Result<String, AllocError> {
    let mut names = String::new(alloc);
    for option in command.get_arguments() {
        if let Some(short) = option.get_short() {
            push_next(&mut names, " ", "-")?;
            names.push(short)?;
        }
        if let Some(long) = option.get_long() {
            push_next(&mut names, " ", "--")?;
            names.push_str(long)?;
        }
    }
    Ok(names)
}

/// Appends a text, behind what is to stand between two where it is not the first.
pub(crate) fn push_next(all: &mut String, between: &str, next: &str) -> Result<(), AllocError> {
    if !all.is_empty() {
        all.push_str(between)?;
    }
    all.push_str(next)
}
