//! What the file of a call tells: which call it is, and how far it is.
ghost use Rattle.std.specs.Prelude.{◌≡◌, ◌≢◌, ℕ, ◌<◌, ◌^◌, ◌++◌, ◌∷◌, List, IfErr, IfNone, IfOk, IfSome, OnOk, codes};
ghost use Rattle.amo_text.specs.Line.{Lacks};
ghost use Rattle.amo_text.specs.Message.{IsMessage};
ghost use Rattle.amo_door.specs.declared.claim.Claim.{Claim};
ghost use Rattle.amo_call.specs.declared.kept.Kept.{Kept};
ghost use Rattle.amo_call.specs.declared.kept.KeptFault.TheVariants.{Malformed};
ghost use Rattle.amo_call.specs.declared.kept.Progress.{Progress};
ghost use Rattle.amo_call.specs.declared.kept.Step.{Step};
ghost use Rattle.amo_call.specs.Kept.{IsClaim, IsKept, IsProgress, claim_text, kept_end, kept_front, kept_text, line_and_message, progress_name, progress_tail, step_name, step_of};

use crate::scan::{before, behind, word_before};
use amo_door::Claim;
use amo_packet::Message;
use amo_text::{
    next_decimal, next_field, next_stream, push_decimal, push_hex, read_decimal, read_message,
};
use std::alloc::{AllocError, Global};
use thiserror::Error;

/// What every such file begins with.
const FRONT: &[u8] = b"amo call 1 ";

/// How far a call is.
#[derive(Debug, Drop)]
pub enum Progress {
    /// This message is to be put. The call may have been made; its answer is not known.
    Putting { message: Message },
    /// The message was put: its event is on this line of the host's journal.
    Put { line: u64, message: Message },
    /// The next message is to be taken. The call may have been made; what it took is on this line of the host's journal or behind it.
    Taking { from: u64 },
    /// This message was taken, by this line of the host's journal, and nobody has said yet that it is done.
    Taken { line: u64, message: Message },
    /// The message that was taken by this line is done.
    Done { line: u64 },
}

/// How far a call is, by its word alone.
#[derive(Clone, Copy)]
enum Step {
    Putting,
    Put,
    Taking,
    Taken,
    Done,
}

/// A call, as its file keeps it.
#[derive(Drop)]
pub struct Kept {
    /// What it names.
    pub claim: Claim,
    /// How far it is.
    pub progress: Progress,
}

/// Why bytes are not the file of a call.
#[derive(Clone, Copy, Debug, PartialEq, Eq, Error)]
pub enum KeptFault {
    /// Memory was refused. The caller may try again later.
    #[error("out of memory")]
    NoMemory,
    /// They are not what a call keeps: another program wrote them, or they were torn.
    #[error("it is no file of a call")]
    Malformed,
}

impl From<AllocError> for KeptFault {
    ghost use Rattle.std.specs.Prelude.{◌≡◌};
    ghost use Rattle.amo_call.specs.declared.kept.KeptFault.TheVariants.{NoMemory};

    ghost from_gives = { λ _ fault. fault ≡ NoMemory };

    fn from(_: AllocError) -> KeptFault {
        KeptFault::NoMemory
    }
}

/// Appends the text of the file.
pub fn push_kept(text: &mut Vec<u8>, kept: &Kept) -> Result<(), AllocError>
    ensures { OnOk result (text.new.items ≡ text.old.items ++ kept_text kept.now) }
{
    push_front(text, &kept.progress)?;
    push_claim(text, &kept.claim)?;
    push_end(text, &kept.progress)
}

/// Appends what stands in front of what a call names.
fn push_front(text: &mut Vec<u8>, progress: &Progress) -> Result<(), AllocError>
    ensures { OnOk result (text.new.items ≡ text.old.items ++ kept_front progress.now) }
{
    text.extend_from_slice(FRONT)?;
    push_name(text, progress)?;
    text.extend_from_slice(b" ")
}

/// Appends what stands behind what a call names.
fn push_end(text: &mut Vec<u8>, progress: &Progress) -> Result<(), AllocError>
    ensures { OnOk result (text.new.items ≡ text.old.items ++ kept_end progress.now) }
{
    text.extend_from_slice(b" ")?;
    push_tail(text, progress)?;
    text.extend_from_slice(b"\n")
}

/// The call whose file has exactly these bytes.
pub fn read_kept(alloc: Global, bytes: &[u8]) -> Result<Kept, KeptFault>
    ensures found { IfOk result (λ kept. IsKept kept × (bytes.now ≡ kept_text kept)) }
    ensures fault { IfErr result (λ fault. fault ≡ Malformed → (kept : Kept) → IsKept kept → bytes.now ≢ kept_text kept) }
{
    let Some((name, claim, tail)) = parse_front(bytes) else {
        return Err(KeptFault::Malformed);
    };
    match parse_progress(alloc, name, tail)? {
        Some(progress) => Ok(Kept { claim, progress }),
        None => Err(KeptFault::Malformed),
    }
}

/// Appends the word for how far a call is.
fn push_name(text: &mut Vec<u8>, progress: &Progress) -> Result<(), AllocError>
    ensures { OnOk result (text.new.items ≡ text.old.items ++ progress_name progress.now) }
{
    text.extend_from_slice(match progress {
        Progress::Putting { .. } => b"putting".as_slice(),
        Progress::Put { .. } => b"put".as_slice(),
        Progress::Taking { .. } => b"taking".as_slice(),
        Progress::Taken { .. } => b"taken".as_slice(),
        Progress::Done { .. } => b"done".as_slice(),
    })
}

/// Appends what a call names.
fn push_claim(text: &mut Vec<u8>, claim: &Claim) -> Result<(), AllocError>
    ensures { OnOk result (text.new.items ≡ text.old.items ++ claim_text claim.now) }
{
    push_decimal(text, claim.stream as u64)?;
    text.extend_from_slice(b" ")?;
    push_decimal(text, claim.number)?;
    text.extend_from_slice(b" ")?;
    text.extend_from_slice(claim.life.bytes())?;
    text.extend_from_slice(b" ")?;
    text.extend_from_slice(claim.by.bytes())
}

/// Appends what is known of a call beside that.
fn push_tail(text: &mut Vec<u8>, progress: &Progress) -> Result<(), AllocError>
    ensures { OnOk result (text.new.items ≡ text.old.items ++ progress_tail progress.now) }
{
    match progress {
        Progress::Putting { message } => push_hex(text, message.bytes()),
        Progress::Put { line, message } | Progress::Taken { line, message } => {
            push_line_and_message(text, *line, message)
        }
        Progress::Taking { from } => push_decimal(text, *from),
        Progress::Done { line } => push_decimal(text, *line),
    }
}

/// Appends a line's number and a message.
fn push_line_and_message(text: &mut Vec<u8>, line: u64, message: &Message) -> Result<(), AllocError>
    ensures { OnOk result (text.new.items ≡ text.old.items ++ line_and_message line message.now) }
{
    push_decimal(text, line)?;
    text.extend_from_slice(b" ")?;
    push_hex(text, message.bytes())
}

/// The word for how far a call is, what it names, and the fields behind that.
fn parse_front(bytes: &[u8]) -> Option<(&[u8], Claim, &[u8])>
    ensures found { IfSome result (λ parts. Lacks 32 parts.0.now × IsClaim parts.1
        × (bytes.now ≡ codes "amo call 1 " ++ (parts.0.now ++ 32 ∷ (claim_text parts.1 ++ 32 ∷ (parts.2.now ++ codes "\n"))))) }
    ensures none { IfNone result ((name tail : List ℕ) (claim : Claim) → Lacks 32 name → IsClaim claim
        → bytes.now ≢ codes "amo call 1 " ++ (name ++ 32 ∷ (claim_text claim ++ 32 ∷ (tail ++ codes "\n")))) }
{
    let text = behind(bytes, FRONT)?;
    let fields = before(text, b"\n")?;
    let (name, behind_name) = next_field(fields)?;
    let (claim, tail) = parse_claim(behind_name)?;
    Some((name, claim, tail))
}

/// What a call names, and the fields behind that.
fn parse_claim(fields: &[u8]) -> Option<(Claim, &[u8])>
    ensures found { IfSome result (λ parts. IsClaim parts.0 × (fields.now ≡ claim_text parts.0 ++ 32 ∷ parts.1.now)) }
    ensures none { IfNone result ((claim : Claim) (tail : List ℕ) → IsClaim claim → fields.now ≢ claim_text claim ++ 32 ∷ tail) }
{
    let (stream, rest) = next_stream(fields)?;
    let (number, words) = next_decimal(rest)?;
    let (life, caller) = word_before(words, b' ')?;
    let (by, tail) = word_before(caller, b' ')?;
    let claim = Claim {
        stream,
        number,
        life,
        by,
    };
    Some((claim, tail))
}

/// How far a call is.
fn parse_progress(alloc: Global, name: &[u8], tail: &[u8]) -> Result<Option<Progress>, AllocError>
    ensures found { IfOk result (λ read. IfSome read (λ progress. IsProgress progress × (name.now ≡ progress_name progress) × (tail.now ≡ progress_tail progress))) }
    ensures none { IfOk result (λ read. IfNone read ((progress : Progress) → IsProgress progress → name.now ≡ progress_name progress → tail.now ≢ progress_tail progress)) }
{
    let Some(step) = parse_step(name) else {
        return Ok(None);
    };
    parse_tail(alloc, step, tail)
}

/// The step of which this is the word.
fn parse_step(name: &[u8]) -> Option<Step>
    ensures found { IfSome result (λ step. name.now ≡ step_name step) }
    ensures none { IfNone result ((step : Step) → name.now ≢ step_name step) }
{
    match name {
        b"putting" => Some(Step::Putting),
        b"put" => Some(Step::Put),
        b"taking" => Some(Step::Taking),
        b"taken" => Some(Step::Taken),
        b"done" => Some(Step::Done),
        _ => None,
    }
}

/// How far a call of this step is.
fn parse_tail(alloc: Global, step: Step, tail: &[u8]) -> Result<Option<Progress>, AllocError>
    ensures found { IfOk result (λ read. IfSome read (λ progress. IsProgress progress × (step_of progress ≡ step) × (tail.now ≡ progress_tail progress))) }
    ensures none { IfOk result (λ read. IfNone read ((progress : Progress) → IsProgress progress → step_of progress ≡ step → tail.now ≢ progress_tail progress)) }
{
    match step {
        Step::Putting => match read_message(alloc, tail)? {
            Some(message) => Ok(Some(Progress::Putting { message })),
            None => Ok(None),
        },
        Step::Put => match parse_line_and_message(alloc, tail)? {
            Some((line, message)) => Ok(Some(Progress::Put { line, message })),
            None => Ok(None),
        },
        Step::Taken => match parse_line_and_message(alloc, tail)? {
            Some((line, message)) => Ok(Some(Progress::Taken { line, message })),
            None => Ok(None),
        },
        Step::Taking => match read_decimal(tail) {
            Some(from) => Ok(Some(Progress::Taking { from })),
            None => Ok(None),
        },
        Step::Done => match read_decimal(tail) {
            Some(line) => Ok(Some(Progress::Done { line })),
            None => Ok(None),
        },
    }
}

/// A line's number and a message.
fn parse_line_and_message(
    alloc: Global,
    fields: &[u8],
) -> Result<Option<(u64, Message)>, AllocError>
    ensures found { IfOk result (λ read. IfSome read (λ parts. (parts.0 < 2 ^ 64) × IsMessage parts.1 × (fields.now ≡ line_and_message parts.0 parts.1))) }
    ensures none { IfOk result (λ read. IfNone read ((line : ℕ) (message : List ℕ) → line < 2 ^ 64 → IsMessage message → fields.now ≢ line_and_message line message)) }
{
    let Some((line, digits)) = next_decimal(fields) else {
        return Ok(None);
    };
    match read_message(alloc, digits)? {
        Some(message) => Ok(Some((line, message))),
        None => Ok(None),
    }
}
