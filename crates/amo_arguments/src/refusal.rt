//! Why arguments choose nothing, and what is told of it.
ghost use Rattle.std.specs.Prelude.{◌≡◌};
ghost use Rattle.amo_arguments.specs.Arguments as arguments;
ghost use Rattle.amo_arguments.specs.Arguments.{BlamesIf, IsMistake, IsTextWith, IsToldAs};

use crate::ArgumentsFault;
use crate::commands::{command, send};
use clap::error::ErrorKind;
use clap::{Command, Error};
use std::alloc::{AllocError, Global};

/// The status that goes with arguments that are mistaken.
const MISTAKE: u8 = 2;

/// Why arguments choose nothing.
#[derive(Drop)]
pub(crate) enum Refusal {
    /// `clap` refuses them, or shows what they ask for.
    ByParser(Error),
    /// `clap` takes them.
    Unfit(Unfit),
}

/// Why arguments choose nothing that `clap` takes.
#[derive(Drop)]
pub(crate) enum Unfit {
    /// A command or a value is not there, or not within its limits, which `clap` has seen to.
    Absent,
    /// A value does not do: which, and what to give in its place.
    Value(String),
    /// `--each` and `--batch` of `send` contradict each other.
    EachAndBatch,
    /// So do `--each` and `--many`.
    EachAndMany,
    /// Memory was refused.
    NoMemory,
}

impl From<AllocError> for Unfit {
    ghost use Rattle.std.specs.Prelude.{◌≡◌};
    ghost use Rattle.amo_arguments.specs.declared.refusal.Unfit.TheVariants as unfit;

    ghost from_gives = { λ _ why. why ≡ unfit.NoMemory };

    fn from(_: AllocError) -> Unfit {
        Unfit::NoMemory
    }
}

/// That a value does not do, with this advice, unless there was no memory for it.
pub(crate) fn blamed(advice: Result<String, AllocError>) -> Unfit
    ensures { BlamesIf (Unit {0}) result }
{
    match advice {
        Ok(advice) => Unfit::Value(advice),
        Err(AllocError) => Unfit::NoMemory,
    }
}

/// What is told of arguments that choose nothing.
pub(crate) fn told(alloc: Global, refusal: &Refusal) -> ArgumentsFault
    ensures { IsToldAs refusal.now result }
{
    match refusal {
        Refusal::ByParser(error) if error.kind() == ErrorKind::OutOfMemory => {
            ArgumentsFault::NoMemory
        }
        Refusal::ByParser(error) => text(alloc, error, status_of(error.kind())),
        Refusal::Unfit(Unfit::Absent) => absent(alloc),
        Refusal::Unfit(Unfit::Value(advice)) => unfit_value(alloc, advice.as_str()),
        Refusal::Unfit(Unfit::EachAndBatch) => contradiction(
            alloc,
            "the argument '--each' cannot be used with '--batch'",
        ),
        Refusal::Unfit(Unfit::EachAndMany) => contradiction(
            alloc,
            "the argument '--each' cannot be used with '--many'",
        ),
        Refusal::Unfit(Unfit::NoMemory) => ArgumentsFault::NoMemory,
    }
}

/// The fault of arguments that are not text, in `clap`'s words.
pub fn not_text(alloc: Global) -> ArgumentsFault
    ensures mistake { IsMistake result }
{
    unfit_value(alloc, "invalid UTF-8 was detected in one or more arguments")
}

/// The fault of a value that does not do, in these words.
fn unfit_value(alloc: Global, message: &str) -> ArgumentsFault
    ensures mistake { IsMistake result }
{
    mistake(alloc, command(alloc), ErrorKind::ValueValidation, message)
}

/// The fault of a match that `clap` does not give: it has a command, and each argument's value is what it has to be.
fn absent(alloc: Global) -> ArgumentsFault
    ensures mistake { IsMistake result }
{
    mistake(
        alloc,
        command(alloc),
        ErrorKind::MissingRequiredArgument,
        "a command or one of its arguments is missing",
    )
}

/// The fault of `send` with two flags that contradict each other, with this message.
fn contradiction(alloc: Global, message: &str) -> ArgumentsFault
    ensures mistake { IsMistake result }
{
    mistake(alloc, sender(alloc), ErrorKind::ArgumentConflict, message)
}

/// The command `send`, under the name by which its usage is told.
fn sender<'a>(alloc: Global) -> Result<Command<'a>, AllocError> {
    send(alloc).into_command()?.bin_name("amo send")
}

/// The fault of this kind with this message, in `clap`'s words on this command, unless there was no memory for one of them.
fn mistake(
    alloc: Global,
    command: Result<Command<'_>, AllocError>,
    kind: ErrorKind,
    message: &str,
) -> ArgumentsFault
    ensures mistake { IsMistake result }
{
    match error_of(command, kind, message) {
        Ok(error) => text(alloc, &error, MISTAKE),
        Err(AllocError) => ArgumentsFault::NoMemory,
    }
}

/// The error of this kind with this message, in `clap`'s words on this command.
fn error_of(
    command: Result<Command<'_>, AllocError>,
    kind: ErrorKind,
    message: &str,
) -> Result<Error, AllocError> {
    command?.error(kind, message)
}

/// The text of an error, with this status.
fn text(alloc: Global, error: &Error, status: u8) -> ArgumentsFault
    ensures { IsTextWith status result }
{
    match error.to_string(alloc) {
        Ok(text) => ArgumentsFault::Text(text, status),
        Err(AllocError) => ArgumentsFault::NoMemory,
    }
}

/// The status that goes with an error of this kind.
fn status_of(kind: ErrorKind) -> u8
    ensures { result ≡ arguments.status_of kind }
{
    match kind {
        ErrorKind::DisplayHelp | ErrorKind::DisplayVersion => 0,
        _ => MISTAKE,
    }
}
