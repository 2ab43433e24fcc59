//! What happens at a host, as its door tells those who follow.
use crate::connection::{Came, Reading, begin, of_door};
use crate::{Asker, CallFault, Request, Response};
use amo_text::next_line;
use std::alloc::{AllocError, Global};
use std::io::{self, Read, Write};

/// How following ended.
#[derive(Drop)]
pub enum Followed {
    /// The door was closed, or there was none.
    Ended,
    /// The door refuses it so.
    Refused(Response),
    /// What happened could not be shown, for this cause.
    Unshown(io::Error),
}

/// Shows what happens at a host, from behind this line of its journal on where one is given, until its door is closed. Each event is a line: the number of
/// its line in the journal, or a dash where it has none, a space, and its object of JSON.
pub fn follow<S: Read + Write, O: Write>(
    alloc: Global,
    stream: &mut S,
    who: &Asker,
    after: Option<u64>,
    output: &mut O,
) -> Result<Followed, CallFault> {
    let request = Request::events(alloc, after)?;
    let Some(mut reading) = begin(alloc, stream, who, &request)? else {
        return Ok(Followed::Ended);
    };
    let mut line = Vec::from_slice(alloc, NO_LINE)?;
    'reads: for _read in 0..u64::MAX {
        let came = reading.read(stream)?;
        if reading.status() == Some(200) {
            if let Err(error) = show_events(alloc, &mut reading, &mut line, output)? {
                return Ok(Followed::Unshown(error));
            }
        }
        match came {
            Came::More => {}
            Came::Nothing => return Ok(Followed::Ended),
            Came::Whole => return Ok(refused(of_door(reading.response(alloc)))),
        }
    }
    Ok(Followed::Ended)
}

/// What stands in the place of the number of a line where there is none.
const NO_LINE: &[u8] = b"-";

/// How it ended where an answer came whole.
fn refused(response: Option<Response>) -> Followed {
    match response {
        Some(response) if response.status != 200 => Followed::Refused(response),
        _ => Followed::Ended,
    }
}

/// Shows the events whose text has come, and takes that out. The line is that of the event whose data comes next.
fn show_events<O: Write>(
    alloc: Global,
    reading: &mut Reading,
    line: &mut Vec<u8>,
    output: &mut O,
) -> Result<io::Result<()>, AllocError> {
    let mut shown = Vec::new(alloc);
    let mut rest = reading.body.as_slice();
    'lines: for _line in 0..reading.body.len() {
        let Some((text, behind)) = next_line(rest) else {
            break;
        };
        push_event_line(&mut shown, line, text)?;
        rest = behind;
    }
    reading.body = Vec::from_slice(alloc, rest)?;
    if shown.is_empty() {
        return Ok(Ok(()));
    }
    match output.write_all(shown.as_slice()) {
        Ok(()) => Ok(output.flush()),
        Err(error) => Ok(Err(error)),
    }
}

/// Appends what a line of an event stream has shown (the HTML standard, section 9.2).
fn push_event_line(shown: &mut Vec<u8>, line: &mut Vec<u8>, text: &[u8]) -> Result<(), AllocError> {
    if let Some(number) = text.strip_prefix(b"id: ") {
        line.clear();
        line.extend_from_slice(number)?;
    } else if let Some(happening) = text.strip_prefix(b"data: ") {
        shown.extend_from_slice(line.as_slice())?;
        shown.extend_from_slice(b" ")?;
        shown.extend_from_slice(happening)?;
        shown.extend_from_slice(b"\n")?;
    } else if text.is_empty() {
        line.clear();
        line.extend_from_slice(NO_LINE)?;
    }
    Ok(())
}
