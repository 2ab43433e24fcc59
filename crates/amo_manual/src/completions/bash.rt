//! Completions for bash: a function that offers words, by the command and by the option before.
use crate::outline::{
    Value, command_names, has_value, option_names, push_next, value_of, words_of,
};
use clap::{Arg, Command};
use std::alloc::{AllocError, Global};

/// What stands before the names of the commands.
const HEAD: &str = "# Completions of amo for bash, as `amo completions bash` prints them.

_amo_words() {
    mapfile -t COMPREPLY < <(compgen -W \"$1\" -- \"$2\")
}

_amo_files() {
    compopt -o filenames 2>/dev/null
    mapfile -t COMPREPLY < <(compgen -f -- \"$1\")
}

_amo() {
    local word=${COMP_WORDS[COMP_CWORD]} before=${COMP_WORDS[COMP_CWORD - 1]} command= i
    COMPREPLY=()
    # Bash cuts a word at an equals sign.
    if [[ $word == '=' ]]; then
        word=
    elif [[ $before == '=' ]]; then
        before=${COMP_WORDS[COMP_CWORD - 2]}
    fi
    for ((i = 1; i < COMP_CWORD; i++)); do
        case ${COMP_WORDS[i]} in
        ";

/// What stands between the names of the commands and the values of their options.
const VALUES: &str = ")
            command=${COMP_WORDS[i]}
            break
            ;;
        esac
    done
    case \"$command $before\" in
";

/// What stands between the values of options and the words of commands.
const WORDS: &str = "    esac
    case $command in
";

/// What stands behind all.
const TAIL: &str = "    esac
}

complete -F _amo amo
";

/// The script.
pub(super) fn script(alloc: Global, whole: &Command<'_>) -> Result<String, AllocError> {
    let commands = command_names(alloc, whole, " ")?;
    let mut script = String::from_str(alloc, HEAD)?;
    script.push_str(command_names(alloc, whole, " | ")?.as_str())?;
    script.push_str(VALUES)?;
    for command in whole.get_subcommands() {
        for option in command.get_arguments() {
            push_value(alloc, &mut script, command.get_name(), option)?;
        }
    }
    script.push_str(WORDS)?;
    for command in whole.get_subcommands() {
        push_words(alloc, &mut script, command, commands.as_str())?;
    }
    let options = option_names(alloc, whole)?;
    write!(
        script,
        "    '') _amo_words '{commands} {options}' \"$word\" ;;\n"
    )?;
    script.push_str(TAIL)?;
    Ok(script)
}

/// What is offered behind an option with a value.
fn push_value(
    alloc: Global,
    script: &mut String,
    command: &str,
    option: &Arg<'_>,
) -> Result<(), AllocError> {
    if option.is_positional() || !has_value(option) {
        return Ok(());
    }
    push_pattern(alloc, script, command, option)?;
    match value_of(alloc, option)? {
        Value::Name(values) => {
            let values = words_of(alloc, values)?;
            write!(script, "        _amo_words '{values}' \"$word\"\n")?;
        }
        Value::File => script.push_str("        _amo_files \"$word\"\n")?,
        Value::Command | Value::Other => {}
    }
    script.push_str("        return\n        ;;\n")
}

/// The pattern of an option of a command, by its names.
fn push_pattern(
    alloc: Global,
    script: &mut String,
    command: &str,
    option: &Arg<'_>,
) -> Result<(), AllocError> {
    let mut names = String::new(alloc);
    if let Some(short) = option.get_short() {
        write!(names, "'{command} -{short}'")?;
    }
    if let Some(long) = option.get_long() {
        push_next(&mut names, " | ", "")?;
        write!(names, "'{command} --{long}'")?;
    }
    write!(script, "    {names})\n")
}

/// What is offered behind a command: its options, and what its own values are.
fn push_words(
    alloc: Global,
    script: &mut String,
    command: &Command<'_>,
    commands: &str,
) -> Result<(), AllocError> {
    let name = command.get_name();
    let mut words = option_names(alloc, command)?;
    let mut has_files = false;
    for argument in command.get_arguments() {
        if argument.is_positional() {
            match value_of(alloc, argument)? {
                Value::Name(names) => push_next(&mut words, " ", words_of(alloc, names)?.as_str())?,
                Value::Command => push_next(&mut words, " ", commands)?,
                Value::File => has_files = true,
                Value::Other => {}
            }
        }
    }
    if !has_files {
        return write!(script, "    {name}) _amo_words '{words}' \"$word\" ;;\n");
    }
    write!(
        script,
        "    {name})
        case $word in
        -*) _amo_words '{words}' \"$word\" ;;
        *) _amo_files \"$word\" ;;
        esac
        ;;
"
    )
}
