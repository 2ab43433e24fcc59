//! Audits journals, and explains them.
ghost use Rattle.std.specs.Prelude.{◌≡◌, ◌≢◌, ◌<◌, ◌∷◌, ℕ, List, IfOk, OnOk};
ghost use Rattle.amo_audit.specs.Audit.{Judges, status_of};
ghost use Rattle.amo_audit.specs.Judgement.{JudgesBoth, judgement_status};
ghost use Rattle.amo_audit.specs.Pieces.{HaveCome};
ghost use Rattle.amo_offline.specs.Statuses.{IsOfAnswer, IsOfJudgement};

use crate::fault::OfflineFault;
use crate::names::{Names, open_piece};
use crate::pair::Pair;
use crate::pieces::Journal;
use crate::watched::Watched;
use amo_audit::{
    Judgement, PiecesAudit, Reach, Verdict, Whose, audit, audit_alone, explain, explain_both,
    merge, outcomes_of, report, stops_of, tell, tell_judgement, whose_are,
};
use amo_journal::{JournalFault, read_journal};
use amo_text::Out;
use amo_world::Event;
use std::cell::Cell;
use std::fs::File;
use std::io;
use std::io::{BufWriter, Printer, Write};
use std::marker::Brand;
use std::rt::Files;
use std::sync::ledger::{Blank, Ledger};
use thiserror::Error;

/// Audits the journal of a name, or the journals of two processes, tells the verdict, and answers the status to end with.
pub fn audit_files<R: AllocGlobal + Eprint + Files<File = File> + Print>(
    rt: &R,
    file: &str,
    second: Option<&str>,
) -> Result<u8, OfflineFault>
    ensures { IfOk result IsOfAnswer }
{
    let names = Names::find(rt, file)?;
    match second {
        Some(second) => audit_two(rt, file, names, second),
        None if names.can_be_read_again(rt) => audit_streamed(rt, file, names),
        None => audit_read(rt, &Journal::read_of(rt, names)?, None),
    }
}

/// Audits the journal of this name in these files, and the one of a second name. Where none of their files is a pipe or a device, both are read a block at a
/// time, and nothing of them is kept. Only where they are not judged yes they are read once more, whole, for what is found of them and at which line.
fn audit_two<R: AllocGlobal + Eprint + Files<File = File> + Print>(
    rt: &R,
    file: &str,
    names: Names,
    second: &str,
) -> Result<u8, OfflineFault>
    ensures { IfOk result IsOfAnswer }
{
    if !names.are_files(rt) {
        let first = Journal::read_of(rt, names)?;
        return audit_read(rt, &first, Some(&Journal::read(rt, second)?));
    }
    let others = Names::find(rt, second)?;
    if !others.are_files(rt) {
        let first = Journal::read_of(rt, names)?;
        return audit_read(rt, &first, Some(&Journal::read_of(rt, others)?));
    }
    let mut pair = Pair::new(names, others);
    if pair.is_judged_yes(rt)? {
        let status = write_verdict::<R, Brand>(rt, Verdict::Yes, Blank::new(1))?;
        pair.tell_missing(rt);
        return Ok(status);
    }
    let first = Journal::read(rt, file)?;
    audit_read(rt, &first, Some(&Journal::read(rt, second)?))
}

/// Audits a journal that was read, or two, tells the verdict, and answers the status to end with.
fn audit_read<R: AllocGlobal + Eprint + Print>(
    rt: &R,
    first: &Journal,
    second: Option<&Journal>,
) -> Result<u8, OfflineFault>
    ensures { IfOk result IsOfAnswer }
{
    let text = second.map(|journal| journal.text());
    let status = audit_bytes::<R, Brand>(rt, first.text(), text, Blank::new(1))?;
    if status != 0 {
        tell_place(rt, first, second);
    }
    first.tell_missing(rt);
    if let Some(second) = second {
        second.tell_missing(rt);
    }
    Ok(status)
}

/// Audits the journal of this name in these files, each of which is read a block at a time. Only where it is in pieces, of which one is at fault, it
/// is read once more, for the place of the line.
fn audit_streamed<R: AllocGlobal + Eprint + Files<File = File> + Print>(
    rt: &R,
    file: &str,
    names: Names,
) -> Result<u8, OfflineFault>
    ensures { IfOk result IsOfAnswer }
{
    let mut names = names;
    let newest = names.take_newest();
    let verdict = audit_pieces(rt, names.pieces(), newest)?;
    let status = write_verdict::<R, Brand>(rt, verdict, Blank::new(1))?;
    if status != 0 && names.are_several() {
        if let Ok(journal) = Journal::read(rt, file) {
            journal.tell_place(rt, line_of(verdict));
        }
    }
    names.tell_missing(rt);
    Ok(status)
}

/// The verdict on a journal in the files of these names, of which the last may be open.
fn audit_pieces<R: AllocGlobal + Files<File = File>>(
    rt: &R,
    names: &[String],
    newest: Option<File>,
) -> Result<Verdict, OfflineFault> {
    let Ok(mut audit) = PiecesAudit::new(rt.alloc()) else {
        return Err(OfflineFault::NoMemory);
    };
    let mut newest = newest;
    for (place, name) in names.iter().enumerate() {
        let mut file = open_piece(
            rt,
            name.as_str(),
            place.saturating_add(1) >= names.len(),
            &mut newest,
        )?;
        if let Err(error) = add_piece(&mut audit, &mut file) {
            return Err(OfflineFault::of_file(rt.alloc(), name.as_str(), error));
        }
    }
    Ok(audit.verdict())
}

/// Has this file audited as the next piece.
fn add_piece(audit: &mut PiecesAudit, file: &mut File) -> io::Result<()>
    ensures { OnOk result ((piece : List ℕ) × ((pieces : List (List ℕ)) → HaveCome audit.old pieces → HaveCome audit.new (piece ∷ pieces))) }
{
    audit.add(file)?;
    Ok(())
}

/// Tells where the line stands that was named of a journal in pieces, or where two journals are at fault.
fn tell_place<R: AllocGlobal + Eprint>(rt: &R, first: &Journal, second: Option<&Journal>) {
    match second {
        Some(second) => tell_place_in_two(rt, first, second),
        None if first.is_in_pieces() => {
            first.tell_place(rt, line_of(audit(rt.alloc(), first.text())));
        }
        None => {}
    }
}

/// Tells where two journals are at fault: the line at which one is no journal, or goes on with what the other one has not sent, as both may; or that of the event
/// which is at fault in both together.
fn tell_place_in_two<R: AllocGlobal + Eprint>(rt: &R, first: &Journal, second: &Journal) {
    match outcomes_of(rt.alloc(), first.text(), second.text()) {
        Ok(told) => match told.reach {
            Reach::First(line) => first.tell_place(rt, line),
            Reach::Second(line) => second.tell_place(rt, line),
            Reach::Whole => {}
        },
        Err(judgement) => tell_place_judged(rt, judgement, first, second),
    }
}

/// Tells where two journals are at fault, of which this is found.
fn tell_place_judged<R: AllocGlobal + Eprint>(
    rt: &R,
    judgement: Judgement,
    first: &Journal,
    second: &Journal,
) {
    match judgement {
        Judgement::First(verdict) => first.tell_place(rt, line_of(verdict)),
        Judgement::Second(verdict) => second.tell_place(rt, line_of(verdict)),
        Judgement::Whole(verdict) => tell_place_merged(rt, line_of(verdict), first, second),
        Judgement::Stuck => tell_stops(rt, first, second),
        Judgement::Shared => {}
    }
}

/// Tells where two journals stop that are stuck: of each the first whole line that delivers what the other one has not sent so far.
pub(crate) fn tell_stops<R: AllocGlobal + Eprint>(rt: &R, first: &Journal, second: &Journal) {
    if let Ok(stops) = stops_of(rt.alloc(), first.lines(), second.lines()) {
        tell_stop(rt, first, stops.first);
        tell_stop(rt, second, stops.second);
    }
}

/// Tells where a journal stops, if it does.
fn tell_stop<R: Eprint>(rt: &R, journal: &Journal, line: Option<usize>) {
    if let Some(line) = line {
        journal.tell_place(rt, line);
    }
}

/// Tells where the event stands that has this line where two journals are merged. Where they do not merge to their ends it tells the first line of each that is at
/// fault whatever the other one says.
fn tell_place_merged<R: AllocGlobal + Eprint>(
    rt: &R,
    line: usize,
    first: &Journal,
    second: &Journal,
) {
    match merged_place(rt, line, first, second) {
        Some(MergedPlace::First(line)) => first.tell_place(rt, line),
        Some(MergedPlace::Second(line)) => second.tell_place(rt, line),
        None => {
            first.tell_place(rt, fault_alone_at(rt, first));
            second.tell_place(rt, fault_alone_at(rt, second));
        }
    }
}

/// In which of two journals an event stands, and at which line.
enum MergedPlace {
    First(usize),
    Second(usize),
}

/// Where the event stands that has this line where two journals are merged.
fn merged_place<R: AllocGlobal>(
    rt: &R,
    line: usize,
    first: &Journal,
    second: &Journal,
) -> Option<MergedPlace> {
    let ours = read_journal(rt.alloc(), first.text()).ok()?;
    let theirs = read_journal(rt.alloc(), second.text()).ok()?;
    let merged = merge(rt.alloc(), ours.as_slice(), theirs.as_slice()).ok()?;
    let headings = (first.heading_lines(), second.heading_lines());
    let place = line.checked_sub(headings.0.max(headings.1).saturating_add(1))?;
    let event = merged.as_slice().get(place)?;
    let mut of_first = 0;
    for earlier in &merged.as_slice()[..place] {
        if is_next(ours.as_slice(), of_first, earlier) {
            of_first = of_first.saturating_add(1);
        }
    }
    if is_next(ours.as_slice(), of_first, event) {
        Some(MergedPlace::First(line_behind(headings.0, of_first)))
    } else {
        let of_second = place.saturating_sub(of_first);
        Some(MergedPlace::Second(line_behind(headings.1, of_second)))
    }
}

/// Whether this event of two journals that are merged is the one that stands at this place of the first of them: a side of a stream has events in one alone.
fn is_next(events: &[Event], place: usize, event: &Event) -> bool {
    match events.get(place) {
        Some(next) => next.side == event.side && next.stream == event.stream,
        None => false,
    }
}

/// The line, from 1, of the event that stands behind so many lines of a heading and so many events.
fn line_behind(heading: usize, events: usize) -> usize {
    heading.saturating_add(events).saturating_add(1)
}

/// The first line of a journal with a wrong reply, or with a word that is used again; or 0.
fn fault_alone_at<R: AllocGlobal>(rt: &R, journal: &Journal) -> usize {
    let Ok(events) = read_journal(rt.alloc(), journal.text()) else {
        return 0;
    };
    match line_of(audit_alone(rt.alloc(), events.as_slice())) {
        0 => 0,
        line => line.saturating_add(journal.heading_lines()),
    }
}

/// The line that a verdict names, or 0.
pub(crate) fn line_of(verdict: Verdict) -> usize {
    match verdict {
        Verdict::Malformed(line)
        | Verdict::Gap(line)
        | Verdict::WrongReply(line)
        | Verdict::Unsent(line)
        | Verdict::Repeat(line) => line,
        Verdict::Yes | Verdict::NoMemory => 0,
    }
}

/// Tells the verdict on the bytes of one journal, or of two, on standard output. What was written has left when it answers.
fn audit_bytes<R: AllocGlobal + Print, L: Ledger>(
    rt: &R,
    first: &[u8],
    second: Option<&[u8]>,
    blank: Blank,
) -> Result<u8, OfflineFault>
    requires name { blank.name ≡ L.name }
    requires parts { blank.parts ≡ L.parts }
    requires some { 0 < L.parts }
    ensures { IfOk result (IsOfJudgement first.now second.entry) }
{
    let cause = Cell::new(None);
    let watched = Watched::new(io::writer(rt), &cause);
    let mut out = Out::<Watched<'_, Printer<'_, R>>, L>::new(watched, blank);
    let told = report(rt.alloc(), first, second, &mut out);
    out.into_inner().flush().map_err(OfflineFault::of_output)?;
    match told {
        Ok(status) => Ok(status),
        Err(fault) => Err(OfflineFault::of_report(fault, cause.get())),
    }
}

/// Tells this verdict on standard output, and answers the status to end with. What was written has left when it answers.
fn write_verdict<R: AllocGlobal + Print, L: Ledger>(
    rt: &R,
    verdict: Verdict,
    blank: Blank,
) -> Result<u8, OfflineFault>
    requires name { blank.name ≡ L.name }
    requires parts { blank.parts ≡ L.parts }
    requires some { 0 < L.parts }
    ensures { IfOk result (λ status. (status ≡ status_of verdict) × (status ≢ 4)) }
{
    let cause = Cell::new(None);
    let watched = Watched::new(io::writer(rt), &cause);
    let mut out = Out::<Watched<'_, Printer<'_, R>>, L>::new(watched, blank);
    let told = tell(rt.alloc(), verdict, &mut out);
    out.into_inner().flush().map_err(OfflineFault::of_output)?;
    match told {
        Ok(status) => Ok(status),
        Err(fault) => Err(OfflineFault::of_report(fault, cause.get())),
    }
}

/// Explains the journal of a name on standard output, or the journals of two processes, and answers the status to end with. Of what is
/// audited other than yes, `errors` gets what is found.
pub fn explain_files<R: AllocGlobal + Eprint + Files<File = File> + Print, E: Write + Drop>(
    rt: &R,
    file: &str,
    second: Option<&str>,
    errors: E,
) -> Result<u8, OfflineFault>
    ensures { IfOk result IsOfAnswer }
{
    let first = Journal::read(rt, file)?;
    match second {
        Some(second) => explain_both_files(rt, &first, second, errors),
        None => explain_file(rt, &first, file, errors),
    }
}

/// Explains two journals, of which the second has this name.
fn explain_both_files<R: AllocGlobal + Eprint + Files<File = File> + Print, E: Write + Drop>(
    rt: &R,
    first: &Journal,
    file: &str,
    errors: E,
) -> Result<u8, OfflineFault>
    ensures { IfOk result IsOfAnswer }
{
    let second = Journal::read(rt, file)?;
    let judgement = explain_two::<R, Brand>(rt, first.text(), second.text(), Blank::new(1))?;
    let status = match judgement {
        Judgement::Whole(Verdict::Yes) => judgement.status(),
        _ => {
            let status = tell_found::<R, E, Brand>(rt, judgement, errors, Blank::new(1))?;
            tell_place(rt, first, Some(&second));
            status
        }
    };
    first.tell_missing(rt);
    second.tell_missing(rt);
    Ok(status)
}

/// Explains the journal of this name.
fn explain_file<R: AllocGlobal + Eprint + Print, E: Write + Drop>(
    rt: &R,
    journal: &Journal,
    file: &str,
    errors: E,
) -> Result<u8, OfflineFault>
    ensures { IfOk result IsOfAnswer }
{
    let verdict = explain_bytes::<R, Brand>(rt, journal.text(), Blank::new(1))?;
    let status = match verdict {
        Verdict::Yes => verdict.status(),
        _ => tell_found::<R, E, Brand>(rt, Judgement::Whole(verdict), errors, Blank::new(1))?,
    };
    if journal.is_in_pieces() {
        journal.tell_place(rt, line_of(verdict));
    }
    journal.tell_missing(rt);
    if is_of_one_side(rt, journal) {
        let _ = rt.eprintln(Told::Alone(file));
    }
    Ok(status)
}

/// Whether a journal has events, each of the same side.
fn is_of_one_side<R: AllocGlobal>(rt: &R, journal: &Journal) -> bool {
    match read_journal(rt.alloc(), journal.text()) {
        Ok(events) => !events.is_empty() && whose_are(events.as_slice()) != Whose::Both,
        Err(_) => false,
    }
}

/// Explains the bytes of a journal on standard output, and answers the verdict. What was written has left when it answers.
fn explain_bytes<R: AllocGlobal + Print, L: Ledger>(
    rt: &R,
    bytes: &[u8],
    blank: Blank,
) -> Result<Verdict, OfflineFault>
    requires name { blank.name ≡ L.name }
    requires parts { blank.parts ≡ L.parts }
    requires some { 0 < L.parts }
    ensures { IfOk result (λ verdict. Judges bytes.now verdict × (verdict ≢ Verdict.NoMemory)) }
{
    let cause = Cell::new(None);
    let watched = Watched::new(io::writer(rt), &cause);
    let buffered = BufWriter::new(rt.alloc(), watched).map_err(OfflineFault::of_output)?;
    let mut out = Out::<BufWriter<Watched<'_, Printer<'_, R>>>, L>::new(buffered, blank);
    let explained = explain(rt.alloc(), bytes, &mut out);
    out.into_inner().flush().map_err(OfflineFault::of_output)?;
    match explained {
        Ok(verdict) => Ok(verdict),
        Err(fault) => Err(OfflineFault::of_report(fault, cause.get())),
    }
}

/// Explains two journals on standard output, and answers what is found of them. What was written has left when it answers.
fn explain_two<R: AllocGlobal + Print, L: Ledger>(
    rt: &R,
    first: &[u8],
    second: &[u8],
    blank: Blank,
) -> Result<Judgement, OfflineFault>
    requires name { blank.name ≡ L.name }
    requires parts { blank.parts ≡ L.parts }
    requires some { 0 < L.parts }
    ensures { IfOk result (λ judgement. JudgesBoth first.now second.now judgement × (judgement_status judgement ≢ 4)) }
{
    let cause = Cell::new(None);
    let watched = Watched::new(io::writer(rt), &cause);
    let buffered = BufWriter::new(rt.alloc(), watched).map_err(OfflineFault::of_output)?;
    let mut out = Out::<BufWriter<Watched<'_, Printer<'_, R>>>, L>::new(buffered, blank);
    let explained = explain_both(rt.alloc(), first, second, &mut out);
    out.into_inner().flush().map_err(OfflineFault::of_output)?;
    match explained {
        Ok(judgement) => Ok(judgement),
        Err(fault) => Err(OfflineFault::of_report(fault, cause.get())),
    }
}

/// Tells what is found of journals, and answers the status to end with, which stays where standard error does not take it.
pub(crate) fn tell_found<R: AllocGlobal, E: Write + Drop, L: Ledger>(
    rt: &R,
    judgement: Judgement,
    errors: E,
    blank: Blank,
) -> Result<u8, OfflineFault>
    requires name { blank.name ≡ L.name }
    requires parts { blank.parts ≡ L.parts }
    requires some { 0 < L.parts }
    ensures { IfOk result (λ status. status ≡ judgement_status judgement) }
{
    let mut out = Out::<E, L>::new(errors, blank);
    match tell_judgement(rt.alloc(), judgement, &mut out) {
        Ok(status) => Ok(status),
        Err(JournalFault::Device) => Ok(judgement.status()),
        Err(fault) => Err(OfflineFault::of_report(fault, None)),
    }
}

/// What is told of a journal on a line of its own.
#[derive(Debug, Drop, Error)]
enum Told<'a> {
    /// The file of this name has the lines of one side.
    #[error("amo: {0}: one side's journal: what happened is explained with the other side's too")]
    Alone(&'a str),
}
