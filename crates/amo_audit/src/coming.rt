//! Events, one after another, from a journal or from a list.
ghost use Rattle.std.specs.Prelude.{◌≤◌, List, length, IfOk, IfSome};
ghost use Rattle.std.specs.List.{All};
ghost use Rattle.amo_world.specs.declared.event.Event.{Event};
ghost use Rattle.amo_world.specs.Stream.{IsStream};
ghost use Rattle.amo_journal.specs.Journal.{numbered};
ghost use Rattle.amo_journal.specs.Lines.{AreLines};
ghost use Rattle.amo_audit.specs.Coming.{AreComing, AreOnStreams, Has, left_of, size_of};

use amo_journal::{Lines, line_in_front};
use amo_world::Event;
use std::alloc::{AllocError, Global};

/// Where events come from.
#[derive(Clone, Copy)]
pub(crate) enum Source<'a> {
    /// The lines of a journal, which tell of them.
    Journal(Lines<'a>),
    /// A list of them.
    Events(&'a [Event]),
}

/// The events that are still to come. Each is read when its turn comes, so only the next one is kept.
#[derive(Drop)]
pub(crate) struct Coming<'a> {
    pub(crate) next: Option<Event>,
    pub(crate) rest: Source<'a>,
}

impl<'a> Coming<'a> {
    /// The first of these events, and those behind it.
    pub(crate) fn read(alloc: Global, source: Source<'a>) -> Result<Coming<'a>, AllocError>
        requires { AreOnStreams source }
        ensures coming { IfOk result (λ coming. (events : List Event) → Has source.entry events → AreComing events coming.next coming.rest) }
        ensures stream { IfOk result (λ coming. IfSome coming.next (λ e. IsStream e.stream)) }
        ensures streams { IfOk result (λ coming. AreOnStreams coming.rest) }
        ensures fewer { IfOk result (λ coming. left_of coming.next coming.rest ≤ size_of source.entry) }
    {
        match source {
            Source::Journal(lines) => Coming::read_line(alloc, lines),
            Source::Events(events) => Coming::copy_first(events),
        }
    }

    /// The event of the first line, and the lines behind it.
    fn read_line(alloc: Global, lines: Lines<'a>) -> Result<Coming<'a>, AllocError>
        ensures coming { IfOk result (λ coming. (events : List Event) → Has (Source.Journal lines.entry) events → AreComing events coming.next coming.rest) }
        ensures stream { IfOk result (λ coming. IfSome coming.next (λ e. IsStream e.stream)) }
        ensures streams { IfOk result (λ coming. AreOnStreams coming.rest) }
        ensures fewer { IfOk result (λ coming. left_of coming.next coming.rest ≤ length lines.entry.text.now) }
    {
        match line_in_front(alloc, lines)? {
            Some((line, rest)) => Ok(Coming {
                next: Some(line.event),
                rest: Source::Journal(rest),
            }),
            None => Ok(Coming {
                next: None,
                rest: Source::Journal(lines),
            }),
        }
    }

    /// A copy of the first event of a list, and the events behind it.
    fn copy_first(events: &'a [Event]) -> Result<Coming<'a>, AllocError>
        requires { All (λ e. IsStream e.stream) events.now }
        ensures coming { IfOk result (λ coming. AreComing events.now coming.next coming.rest) }
        ensures stream { IfOk result (λ coming. IfSome coming.next (λ e. IsStream e.stream)) }
        ensures streams { IfOk result (λ coming. AreOnStreams coming.rest) }
        ensures fewer { IfOk result (λ coming. left_of coming.next coming.rest ≤ length events.now) }
    {
        if events.is_empty() {
            return Ok(Coming {
                next: None,
                rest: Source::Events(events),
            });
        }
        let Ok(first) = events[0].copy() else {
            return Err(AllocError);
        };
        Ok(Coming {
            next: Some(first),
            rest: Source::Events(&events[1..]),
        })
    }
}
