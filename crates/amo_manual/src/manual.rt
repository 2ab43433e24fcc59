//! The manual page, in roff, made from the program's commands and from what help says of each.
use crate::outline::{Value, has_value, push_next, value_of, whole, words_of};
use amo_arguments::{NAME, command};
use clap::error::ErrorKind;
use clap::{Arg, Command, Error};
use std::alloc::{AllocError, Global};

/// The page.
pub fn page(alloc: Global) -> Result<String, AllocError> {
    let whole = whole(alloc)?;
    page_of(alloc, &whole)
}

/// The page of the whole program.
fn page_of(alloc: Global, whole: &Command<'_>) -> Result<String, AllocError> {
    let help = help(alloc, &[NAME, "--help"])?;
    let mut page = String::new(alloc);
    push_head(&mut page, whole, help.as_str())?;
    page.push_str(".SH OPTIONS\n")?;
    push_arguments(alloc, &mut page, whole)?;
    page.push_str(".SH COMMANDS\n")?;
    for command in whole.get_subcommands() {
        push_command(alloc, &mut page, command)?;
    }
    push_closing(alloc, &mut page, closing_of(help.as_str()))?;
    Ok(page)
}

/// What `clap` says where these words ask for help.
fn help(alloc: Global, words: &[&str]) -> Result<String, AllocError> {
    match command(alloc)?.try_get_matches_from(words) {
        Err(error) => shown(alloc, &error),
        // Such words choose nothing to do.
        Ok(_) => Ok(String::new(alloc)),
    }
}

/// What `clap` shows; nothing of it where memory was refused, since it says that too in a text of its own.
fn shown(alloc: Global, error: &Error) -> Result<String, AllocError> {
    if error.kind() == ErrorKind::OutOfMemory {
        return Err(AllocError);
    }
    error.to_string(alloc)
}

/// How help says that a command is called.
fn usage_of(help: &str) -> &str {
    let Some((_, usage)) = help.split_once("\nUsage: ") else {
        return "";
    };
    match usage.split_once('\n') {
        Some((line, _)) => line,
        None => usage,
    }
}

/// What help says behind the options.
fn closing_of(help: &str) -> &str {
    let Some((_, options)) = help.split_once("\nOptions:\n") else {
        return "";
    };
    match options.split_once("\n\n") {
        Some((_, closing)) => closing,
        None => "",
    }
}

/// The page's title, what the program is, and how it is called.
fn push_head(page: &mut String, whole: &Command<'_>, help: &str) -> Result<(), AllocError> {
    let version = whole.get_version().unwrap_or("");
    write!(page, ".TH AMO 1 \"\" \"{NAME} {version}\"\n")?;
    write!(page, ".SH NAME\n{NAME} \\- ")?;
    push_line(page, whole.get_about().unwrap_or(""))?;
    page.push_str(".SH SYNOPSIS\n")?;
    push_line(page, usage_of(help))
}

/// A command: how it is called, what it does, its arguments, and what help says behind them.
fn push_command(alloc: Global, page: &mut String, command: &Command<'_>) -> Result<(), AllocError> {
    let help = help(alloc, &[NAME, "help", command.get_name()])?;
    page.push_str(".SS ")?;
    push_line(page, usage_of(help.as_str()))?;
    push_line(page, command.get_about().unwrap_or(""))?;
    push_arguments(alloc, page, command)?;
    page.push_str(".PP\n")?;
    push_text(page, closing_of(help.as_str()))
}

/// The arguments of a command, each with what help says of it.
fn push_arguments(
    alloc: Global,
    page: &mut String,
    command: &Command<'_>,
) -> Result<(), AllocError> {
    for argument in command.get_arguments() {
        page.push_str(".TP\n.B ")?;
        if let Some(short) = argument.get_short() {
            write!(page, "\\-{short}, ")?;
        }
        push_line(page, argument.to_string(alloc)?.as_str())?;
        push_line(page, notes(alloc, argument)?.as_str())?;
    }
    Ok(())
}

/// What help says of an argument, and which values it may have and has where it is absent.
fn notes(alloc: Global, argument: &Arg<'_>) -> Result<String, AllocError> {
    let mut notes = String::from_str(alloc, argument.get_help().unwrap_or(""))?;
    if !has_value(argument) {
        return Ok(notes);
    }
    if let Value::Name(names) = value_of(alloc, argument)? {
        let names = words_of(alloc, names)?;
        push_next(&mut notes, " ", "")?;
        write!(notes, "[one of: {names}]")?;
    }
    let defaults = words_of(alloc, argument.get_default_values())?;
    if !defaults.is_empty() {
        push_next(&mut notes, " ", "")?;
        write!(notes, "[default: {defaults}]")?;
    }
    Ok(notes)
}

/// What help on the program says behind its options. A line of one word and a colon is the heading of a section.
fn push_closing(alloc: Global, page: &mut String, closing: &str) -> Result<(), AllocError> {
    let mut section = String::new(alloc);
    for line in closing.lines() {
        match heading_of(line) {
            Some(heading) => {
                push_text(page, section.as_str())?;
                section.clear();
                push_heading(page, heading)?;
            }
            None => {
                section.push_str(line)?;
                section.push('\n')?;
            }
        }
    }
    push_text(page, section.as_str())
}

/// The one word of a line that is a heading.
fn heading_of(line: &str) -> Option<&str> {
    let word = line.strip_suffix(":")?;
    if word.contains(' ') {
        return None;
    }
    Some(word)
}

/// The heading of a section.
fn push_heading(page: &mut String, heading: &str) -> Result<(), AllocError> {
    page.push_str(".SH ")?;
    for letter in heading.chars() {
        page.push(letter.to_ascii_uppercase())?;
    }
    page.push('\n')
}

/// A text: lines that are set in stay as they are, others are filled.
fn push_text(page: &mut String, text: &str) -> Result<(), AllocError> {
    let mut is_set_in = false;
    for line in text.lines() {
        if line.starts_with(' ') != is_set_in {
            is_set_in = !is_set_in;
            page.push_str(if is_set_in { ".nf\n" } else { ".fi\n" })?;
        }
        if line.is_empty() {
            page.push_str(".PP\n")?;
        } else {
            push_line(page, line)?;
        }
    }
    if is_set_in {
        page.push_str(".fi\n")?;
    }
    Ok(())
}

/// A line, in which nothing has a meaning of its own to roff.
fn push_line(page: &mut String, line: &str) -> Result<(), AllocError> {
    if line.starts_with('.') {
        page.push_str("\\&")?;
    }
    for letter in line.chars() {
        match spelling_of(letter) {
            Some(spelling) => page.push_str(spelling)?,
            None => page.push(letter)?,
        }
    }
    page.push('\n')
}

/// How roff spells a letter that it reads as more than itself.
fn spelling_of(letter: char) -> Option<&'static str> {
    match letter {
        '\\' => Some("\\e"),
        '-' => Some("\\-"),
        '\'' => Some("\\(aq"),
        '"' => Some("\\(dq"),
        '`' => Some("\\(ga"),
        '^' => Some("\\(ha"),
        '~' => Some("\\(ti"),
        _ => None,
    }
}
