//! Completions for zsh: the commands by `_describe`, and what stands behind each by `_arguments`.
use crate::outline::{Value, command_names, has_value, value_of, words_of};
use clap::{Arg, ArgAction, Command};
use std::alloc::{AllocError, Global};

/// What stands before the commands.
const HEAD: &str = "#compdef amo
# Completions of amo for zsh, as `amo completions zsh` prints them.

_amo() {
    local curcontext=\"$curcontext\" state line
    local -a commands
    commands=(
";

/// What stands between the commands and what `_arguments` is told of the program itself.
const PROGRAM: &str = "    )
    _arguments -C \\
";

/// What stands between that and what it is told of each command.
const BEHIND: &str = "        '1: :->command' \\
        '*:: :->behind' && return
    case $state in
    command) _describe command commands ;;
    behind)
        case $words[1] in
";

/// What stands behind all. The script may lie where zsh looks for functions, or be read by `source`.
const TAIL: &str = "        esac
        ;;
    esac
}

if [[ $funcstack[1] == _amo ]]; then
    _amo \"$@\"
else
    compdef _amo amo
fi
";

/// The script.
pub(super) fn script(alloc: Global, whole: &Command<'_>) -> Result<String, AllocError> {
    let commands = command_names(alloc, whole, " ")?;
    let commands = commands.as_str();
    let mut script = String::from_str(alloc, HEAD)?;
    push_commands(&mut script, whole)?;
    script.push_str(PROGRAM)?;
    for argument in whole.get_arguments() {
        script.push_str("        ")?;
        push_argument(alloc, &mut script, argument, commands)?;
        script.push_str(" \\\n")?;
    }
    script.push_str(BEHIND)?;
    for command in whole.get_subcommands() {
        push_command(alloc, &mut script, command, commands)?;
    }
    script.push_str(TAIL)?;
    Ok(script)
}

/// What `_describe` is told of each command.
fn push_commands(script: &mut String, whole: &Command<'_>) -> Result<(), AllocError> {
    for command in whole.get_subcommands() {
        write!(script, "        '{}:", command.get_name())?;
        push_text(script, command.get_about().unwrap_or(""))?;
        script.push_str("'\n")?;
    }
    Ok(())
}

/// What `_arguments` is told of a command.
fn push_command(
    alloc: Global,
    script: &mut String,
    command: &Command<'_>,
    commands: &str,
) -> Result<(), AllocError> {
    write!(
        script,
        "        {})\n            _arguments",
        command.get_name()
    )?;
    for argument in command.get_arguments() {
        script.push_str(" \\\n                ")?;
        push_argument(alloc, script, argument, commands)?;
    }
    script.push_str("\n            ;;\n")
}

/// What `_arguments` is told of an argument, as `'--link=[What carries the packets]:link:(memory udp)'`.
fn push_argument(
    alloc: Global,
    script: &mut String,
    argument: &Arg<'_>,
    commands: &str,
) -> Result<(), AllocError> {
    push_names(script, argument)?;
    if !argument.is_positional() {
        script.push('[')?;
        push_text(script, argument.get_help().unwrap_or(""))?;
        script.push(']')?;
    }
    if has_value(argument) {
        push_value(alloc, script, argument, commands)?;
    }
    script.push('\'')
}

/// How an argument is named: by its options, and one that is known by its place not at all, but for how often it may be there.
fn push_names(script: &mut String, argument: &Arg<'_>) -> Result<(), AllocError> {
    let (behind_short, behind_long) = if has_value(argument) {
        ("+", "=")
    } else {
        ("", "")
    };
    match (argument.get_short(), argument.get_long()) {
        (Some(short), Some(long)) => {
            write!(
                script,
                "'(-{short} --{long})'{{-{short}{behind_short},--{long}{behind_long}}}'"
            )
        }
        (Some(short), None) => write!(script, "'-{short}{behind_short}"),
        (None, Some(long)) => write!(script, "'--{long}{behind_long}"),
        (None, None) if argument.get_action() == ArgAction::Append => script.push_str("'*"),
        (None, None) if argument.is_required_set() => script.push('\''),
        (None, None) => script.push_str("':"),
    }
}

/// What the value of an argument is, behind its name.
fn push_value(
    alloc: Global,
    script: &mut String,
    argument: &Arg<'_>,
    commands: &str,
) -> Result<(), AllocError> {
    write!(script, ":{}:", argument.get_id())?;
    match value_of(alloc, argument)? {
        Value::Name(names) => {
            let names = words_of(alloc, names)?;
            write!(script, "({names})")
        }
        Value::Command => write!(script, "({commands})"),
        Value::File => script.push_str("_files"),
        Value::Other => script.push(' '),
    }
}

/// A text within quotes, in which brackets and colons have no meaning of their own.
fn push_text(script: &mut String, text: &str) -> Result<(), AllocError> {
    for letter in text.chars() {
        if letter == '\'' {
            script.push_str("'\\''")?;
        } else {
            if is_special(letter) {
                script.push('\\')?;
            }
            script.push(letter)?;
        }
    }
    Ok(())
}

/// Whether zsh reads this letter of a description as more than itself.
fn is_special(letter: char) -> bool {
    matches!(letter, '[' | ']' | ':' | '\\')
}
