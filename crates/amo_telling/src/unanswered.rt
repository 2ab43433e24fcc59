//! What is told of puts that had no answer, and how far the lines of a journal tell of them.
ghost use Rattle.std.specs.Prelude.{◌≡◌, ◌≢◌, ◌++◌, ℕ, List, IsTrue, false};
ghost use Rattle.amo_journal.specs.declared.numbered.Numbered.{Numbered};
ghost use Rattle.amo_journal.specs.declared.version.Version.{Version};
ghost use Rattle.amo_journal.specs.Journal.{InRange, line_text};
ghost use Rattle.amo_telling.specs.Unanswered.{StopsBy, is_ack, is_answer, is_sent, is_settled, told_if};

use crate::put_outcome::PutOutcome;
use amo_lives::Span;
use amo_outcomes::SenderOutcome;
use amo_packet::OwnedBody;
use amo_text::next_line;
use amo_world::Act;

/// How far lines were read.
#[derive(Clone, Copy, Debug, PartialEq, Eq)]
pub enum Progress {
    /// To their end, but for a last line that has no end.
    Whole,
    /// To a line that has another number than the next one, or the greatest that there is. Of lines that are recalled: to one that was recalled before,
    /// or that does not stand in front of the next one.
    Gap,
    /// To a line that is none.
    Malformed,
}

/// What is told of a put of an earlier life that was not answered.
#[derive(Clone, Copy, PartialEq, Eq)]
pub(crate) enum Told {
    Gone,
    Unknown,
}

/// What is told of a put on the line of this number, which became this, if it was not got.
pub(crate) fn told_of(outcome: Option<SenderOutcome>, number: u64, doubts: &[Span]) -> Option<Told>
    ensures { result ≡ told_if doubts.now number outcome }
{
    let Some(outcome) = outcome else {
        return Some(Told::Unknown);
    };
    match PutOutcome::BySender(outcome).as_told(number, doubts) {
        PutOutcome::BySender(SenderOutcome::Got) => None,
        PutOutcome::BySender(SenderOutcome::Gone | SenderOutcome::Open) => Some(Told::Gone),
        _ => Some(Told::Unknown),
    }
}

/// Whether an act brings an ack.
pub(crate) fn is_ack(act: &Act) -> bool
    ensures { result ≡ is_ack act.now }
{
    match act {
        Act::Deliver(packet, _) => matches!(&packet.body, OwnedBody::Ack(_, _)),
        _ => false,
    }
}

/// Whether this says that a put was answered: it was got, or it is settled.
pub(crate) fn is_answer(outcome: SenderOutcome) -> bool
    ensures { result ≡ is_answer outcome }
{
    matches!(
        outcome,
        SenderOutcome::Got | SenderOutcome::Unknown { settled: true }
    )
}

/// Whether this says that a put was sent.
pub(crate) fn is_sent(outcome: Option<SenderOutcome>) -> bool
    ensures { result ≡ is_sent outcome }
{
    matches!(
        outcome,
        Some(SenderOutcome::Got | SenderOutcome::Unknown { .. })
    )
}

/// Whether this says that it is settled what became of a put.
pub(crate) fn is_settled(outcome: Option<SenderOutcome>) -> bool
    ensures { result ≡ is_settled outcome }
{
    match outcome {
        Some(outcome) => is_answer(outcome),
        None => false,
    }
}

/// Whether this says that a put was sent, and it is not settled what became of it.
pub(crate) fn is_open(outcome: SenderOutcome) -> bool
    ensures { IsTrue result → outcome ≡ SenderOutcome.Unknown false }
{
    matches!(outcome, SenderOutcome::Unknown { settled: false })
}

/// How far lines were read, where no line stands in front of what is left.
pub(crate) fn stopped(rest: &[u8]) -> Progress
    ensures { (version : Version) → ((line : Numbered) (more : List ℕ) → InRange version line → rest.now ≢ line_text line ++ more) → StopsBy version (λ line. ⊥) rest.now result }
{
    match next_line(rest) {
        Some(_) => Progress::Malformed,
        None => Progress::Whole,
    }
}
