//! From where a call is made: its file, the way to the door, and the time that it has.
ghost use Rattle.std.specs.Prelude.{◌≡◌, [], IfOk, OnOk};
ghost use Rattle.amo_call.specs.Kept.{kept_text};
ghost use Rattle.amo_client.specs.File.{bytes_of};

use crate::fault::ClientFault;
use crate::held::{FileText, remove, write_anew};
use crate::timely::Timely;
use amo_call::{Asker, CallFault, Caller, Kept, Request, Response, exchange, push_kept};
use amo_disk::Cause;
use std::alloc::Global;
use std::fs::File;
use std::net::{Net, TcpStream};
use std::rt::{Clock, Files};
use std::time::{Duration, Instant};
use std::{io, thread};

/// The longest that a door is asked to wait, in seconds.
pub(crate) const MOST_WAIT: u64 = 30;

/// How long an answer may take behind that, in seconds.
const ANSWER_TIME: u64 = 30;

/// How long an answer is waited for until it is whole, in seconds.
const LONGEST: u64 = MOST_WAIT + ANSWER_TIME;

/// How long it rests before it tries again, in milliseconds.
const REST: u64 = 100;

/// Who asks where, and for how long.
#[derive(Debug, Drop)]
pub(crate) struct Place {
    pub(crate) who: Asker,
    /// For how many seconds it is tried again.
    pub(crate) wait: u64,
}

impl Place {
    /// That of a call which asks nothing.
    pub(crate) fn nowhere(alloc: Global) -> Place {
        Place {
            who: Asker {
                host: String::new(alloc),
                authorization: None,
            },
            wait: 0,
        }
    }
}

/// Who knows why the last call came to nothing.
pub(crate) trait Explains {
    fn why(&self) -> Option<Cause>;
}

/// Who makes a call.
#[derive(Drop)]
pub(crate) struct Station<'a, R> {
    rt: &'a R,
    alloc: Global,
    place: &'a Place,
    /// The path of the call's file.
    path: &'a str,
    /// What that has.
    text: FileText,
    since: Instant,
    /// Why the last call came to nothing.
    why: Option<Cause>,
}

impl<'a, R: AllocGlobal + Clock + Files<File = File> + Net<Stream = TcpStream>> Station<'a, R> {
    /// One whose file has this.
    pub(crate) fn new(
        rt: &'a R,
        place: &'a Place,
        path: &'a str,
        text: FileText,
    ) -> Result<Station<'a, R>, ClientFault>
        ensures { IfOk result (λ station. station.text ≡ text) }
    {
        let alloc = rt.alloc();
        let since = match Instant::now(rt) {
            Ok(since) => since,
            Err(error) => return Err(ClientFault::Clock(Cause::from(error))),
        };
        Ok(Station {
            rt,
            alloc,
            place,
            path,
            text,
            since,
            why: None,
        })
    }

    /// Keeps a call in the file.
    fn keep(&mut self, kept: &Kept) -> Result<(), CallFault>
        ensures { OnOk result (bytes_of self.new.text ≡ kept_text kept.now) }
    {
        let mut text = Vec::new(self.alloc);
        push_kept(&mut text, kept)?;
        match write_anew(self.rt, self.alloc, self.path, text) {
            Ok(written) => {
                self.text = written;
                Ok(())
            }
            Err(error) => Err(self.failed(error)),
        }
    }

    /// Keeps no call any more: the file is removed.
    fn keep_none(&mut self) -> Result<(), CallFault>
        ensures { OnOk result (bytes_of self.new.text ≡ []) }
    {
        match remove(self.rt, self.alloc, self.path) {
            Ok(gone) => {
                self.text = gone;
                Ok(())
            }
            Err(error) => Err(self.failed(error)),
        }
    }

    /// The fault that the file of the call is, where it failed so, and why is kept.
    fn failed(&mut self, error: io::Error) -> CallFault {
        self.why = Some(Cause::from(error));
        CallFault::File
    }

    /// Asks once.
    pub(crate) fn inquire(&mut self, request: &Request) -> Result<Option<Response>, CallFault>
        ensures { self.new.text ≡ self.old.text }
    {
        let way = self.connect_for_answer();
        match self.explained(way) {
            Some(mut way) => exchange(self.alloc, &mut way, &self.place.who, request),
            None => Ok(None),
        }
    }

    /// How a stream is, asked for until its last message has settled, or its next one is ready, as long as there is time. None where no answer came.
    pub(crate) fn settle(&mut self, stream: u32) -> Result<Option<Response>, CallFault> {
        'asks: for _ask in 0..u64::MAX {
            let request = Request::state(self.alloc, stream, self.left().min(MOST_WAIT))?;
            let response = self.inquire(&request)?;
            if is_settled(&response) || !self.pause() {
                return Ok(response);
            }
        }
        Err(CallFault::Strange)
    }

    /// A way to the door, as long as there is time. None where there is none, and why is kept.
    pub(crate) fn find(&mut self) -> Option<TcpStream> {
        'tries: for _try in 0..u64::MAX {
            let way = self.connect();
            let way = self.explained(way);
            if way.is_some() || !self.pause() {
                return way;
            }
        }
        None
    }

    /// What was to be had, if it was. None where it was not, and why is kept.
    fn explained<T>(&mut self, had: io::Result<T>) -> Option<T>
        ensures { self.new.text ≡ self.old.text }
    {
        match had {
            Ok(had) => Some(had),
            Err(error) => {
                self.why = Some(Cause::from(error));
                None
            }
        }
    }

    /// A way to the door.
    fn connect(&self) -> io::Result<TcpStream> {
        let stream: TcpStream = TcpStream::connect(self.rt, self.place.who.host.as_str())?;
        let longest = Duration::from_secs(LONGEST);
        stream.set_read_timeout(Some(longest))?;
        stream.set_write_timeout(Some(longest))?;
        Ok(stream)
    }

    /// A way to the door, which is there for one answer.
    fn connect_for_answer(&self) -> io::Result<Timely<'a, R>> {
        Timely::new(self.rt, self.connect()?, Duration::from_secs(LONGEST))
    }

    /// How many seconds are left.
    fn left(&self) -> u64 {
        match self.since.elapsed(self.rt) {
            Ok(passed) => self.place.wait.saturating_sub(passed.as_secs()),
            Err(_) => 0,
        }
    }
}

impl<R: AllocGlobal + Clock + Files<File = File> + Net<Stream = TcpStream>> Caller
    for Station<'_, R> {
    ghost saved = { λ s. bytes_of s.text };

    // No clause says what a connection carries: whatever came over it counts as an answer.
    ghost is_fresh = { λ _. Unit {0} };

    ghost is_silent = { λ _. Unit {0} };

    ghost heard = { λ _. Unit {0} };

    fn name(&mut self, kept: &Kept) -> Result<(), CallFault> {
        self.keep(kept)
    }

    fn note(&mut self, kept: &Kept) -> Result<(), CallFault> {
        self.keep(kept)
    }

    fn forget(&mut self) -> Result<(), CallFault> {
        self.keep_none()
    }

    fn make(&mut self, kept: &Kept) -> Result<Option<Response>, CallFault> {
        let wait = self.left().min(MOST_WAIT);
        let request = Request::of_call(self.alloc, kept, wait)?;
        self.inquire(&request)
    }

    fn ask(&mut self, request: &Request) -> Result<Option<Response>, CallFault> {
        // A question that is put off has no answer yet: else a crowded door would be taken for one that refuses it.
        match self.inquire(request)? {
            Some(response) if is_put_off(response.status) => Ok(None),
            answer => Ok(answer),
        }
    }

    fn pause(&mut self) -> bool {
        if self.left() == 0 {
            return false;
        }
        thread::sleep(self.rt, Duration::from_millis(REST));
        true
    }
}

impl<R> Explains for Station<'_, R> {
    fn why(&self) -> Option<Cause> {
        self.why
    }
}

/// Whether an answer is the last one that is asked for: not how a stream is whose last message is on its way, or whose next one is not there, and no wish to
/// be asked later.
fn is_settled(response: &Option<Response>) -> bool {
    match response {
        Some(response) => {
            !is_put_off(response.status)
                && !(response.status == 200 && is_open(response.body.as_slice()))
        }
        None => false,
    }
}

/// Whether a status asks to try later.
fn is_put_off(status: u16) -> bool {
    status == 408 || status == 503
}

/// Whether the text of how a stream is ends with that its last message is on its way, or its next one not there.
fn is_open(state: &[u8]) -> bool {
    state.ends_with(b"\"last\":\"open\"}") || state.ends_with(b"\"ready\":false}")
}
