//! What a host with a door counted, in Prometheus's text format.
use crate::responder::Responder;
use amo_door::When;
use amo_live::{Lineage, LiveFault};
use amo_net::Link;
use amo_object::End;
use amo_text::{Sink, push_decimal};
use std::alloc::AllocError;

/// What was counted since the start of the host.
#[derive(Clone, Copy)]
pub(crate) struct Counts {
    /// Requests that came whole and were right.
    pub(crate) requests: u64,
    /// Messages that were put.
    pub(crate) put: u64,
    /// Puts that came again, and were answered what was made before.
    pub(crate) put_again: u64,
    /// Puts for which a stream had no room.
    pub(crate) full: u64,
    /// Messages that were taken.
    pub(crate) taken: u64,
    /// Takes that came again.
    pub(crate) taken_again: u64,
    /// Puts and takes for another number than the next one.
    pub(crate) conflicts: u64,
    /// Connections that were taken.
    pub(crate) accepted: u64,
    /// Connections beyond the bound.
    pub(crate) crowded: u64,
    /// Connections that are open.
    pub(crate) open: u64,
    /// Pieces of its journal that the host has begun.
    pub(crate) pieces: u64,
}

impl Counts {
    /// Nothing yet.
    pub(crate) fn new() -> Counts {
        Counts {
            requests: 0,
            put: 0,
            put_again: 0,
            full: 0,
            taken: 0,
            taken_again: 0,
            conflicts: 0,
            accepted: 0,
            crowded: 0,
            open: 0,
            pieces: 0,
        }
    }

    /// A put was answered what was made, now or before.
    pub(crate) fn told_put(&mut self, when: When) {
        match when {
            When::Now => self.put = self.put.saturating_add(1),
            When::Before => self.put_again = self.put_again.saturating_add(1),
        }
    }
}

/// What a measure is: what only grows, or what is now.
#[derive(Clone, Copy)]
enum Measure {
    Counter,
    Gauge,
}

impl<L: Link, S: Sink, W: Lineage> Responder<L, S, W> {
    /// What the host counted, as Prometheus reads it.
    pub(crate) fn counts_text(&self) -> Result<Vec<u8>, LiveFault> {
        let mut text = Vec::new(self.alloc);
        let counts = &self.counts;
        push_counter(
            &mut text,
            "amo_door_requests_total",
            "Requests that were calls of the host.",
            counts.requests,
        )?;
        push_counter(
            &mut text,
            "amo_door_connections_total",
            "Connections that were taken.",
            counts.accepted,
        )?;
        push_counter(
            &mut text,
            "amo_door_crowded_total",
            "Connections that were refused, as there were too many.",
            counts.crowded,
        )?;
        push_gauge(
            &mut text,
            "amo_door_connections",
            "Connections that are open.",
            counts.open,
        )?;
        push_counter(
            &mut text,
            "amo_conflicts_total",
            "Puts and takes for another number than the next one.",
            counts.conflicts,
        )?;
        match self.service.host.side() {
            End::Sender => self.push_sender(&mut text)?,
            End::Receiver => self.push_receiver(&mut text)?,
        }
        self.push_traffic(&mut text)?;
        push_gauge(
            &mut text,
            "amo_journal_next_line",
            "The number of the journal's next line.",
            self.service.host.next_line(),
        )?;
        push_gauge(
            &mut text,
            "amo_start_time_seconds",
            "Since when the host lives, in seconds from 1970 on.",
            self.identity.since,
        )?;
        Ok(text)
    }

    /// Appends what a sender counted.
    fn push_sender(&self, text: &mut Vec<u8>) -> Result<(), AllocError> {
        let counts = &self.counts;
        push_counter(
            text,
            "amo_put_total",
            "Messages that were put by requests.",
            counts.put,
        )?;
        push_counter(
            text,
            "amo_put_again_total",
            "Puts that came again.",
            counts.put_again,
        )?;
        push_counter(
            text,
            "amo_full_total",
            "Puts for which a stream had no room.",
            counts.full,
        )?;
        push_gauge(
            text,
            "amo_waiting_messages",
            "Messages that wait for their handshake.",
            self.service.figures().waiting,
        )?;
        push_gauge(
            text,
            "amo_open_streams",
            "Streams whose last message is on its way.",
            self.service.open_streams(),
        )?;
        self.push_handshakes(text)
    }

    /// Appends how a sender's handshakes ended, and how long they took.
    fn push_handshakes(&self, text: &mut Vec<u8>) -> Result<(), AllocError> {
        let figures = self.service.figures();
        let times = self.service.times();
        for (name, help, value) in [
            (
                "amo_yes_total",
                "Messages of which it was told that they were got.",
                figures.yes,
            ),
            (
                "amo_no_total",
                "Messages of which it was told that they may or may not have been got.",
                figures.no,
            ),
            (
                "amo_handshakes_total",
                "Handshakes that ended.",
                figures.ended,
            ),
        ] {
            push_counter(text, name, help, value)?;
        }
        for (name, help, of_thousand) in [
            (
                "amo_handshake_p50_microseconds",
                "Within how long half of the handshakes ended.",
                500,
            ),
            (
                "amo_handshake_p99_microseconds",
                "Within how long 99 of 100 handshakes ended.",
                990,
            ),
        ] {
            push_gauge(text, name, help, times.within(of_thousand).unwrap_or(0))?;
        }
        Ok(())
    }

    /// Appends what a receiver counted.
    fn push_receiver(&self, text: &mut Vec<u8>) -> Result<(), AllocError> {
        let counts = &self.counts;
        push_counter(
            text,
            "amo_taken_total",
            "Messages that were taken by requests.",
            counts.taken,
        )?;
        push_counter(
            text,
            "amo_taken_again_total",
            "Takes that came again.",
            counts.taken_again,
        )?;
        push_gauge(
            text,
            "amo_ready_streams",
            "Streams of which a message can be taken.",
            self.service.ready_streams(),
        )?;
        push_gauge(
            text,
            "amo_held_messages",
            "Messages that have come and were not taken.",
            self.service.figures().held,
        )
    }

    /// Appends what went through the link, what came and did nothing, and what the journal got.
    fn push_traffic(&self, text: &mut Vec<u8>) -> Result<(), AllocError> {
        let figures = self.service.figures();
        let (traffic, dropped) = (figures.traffic, figures.dropped);
        for (name, help, value) in [
            ("amo_packets_sent_total", "Packets that left.", traffic.sent),
            (
                "amo_packets_again_total",
                "Packets that left again, as nothing had answered them in time.",
                traffic.again,
            ),
            (
                "amo_packets_received_total",
                "Datagrams that came from the other host.",
                traffic.received,
            ),
            (
                "amo_packets_unread_total",
                "Datagrams that were no packets for which the journal has lines.",
                dropped.unread,
            ),
            (
                "amo_packets_foreign_total",
                "Packets for streams that the host has not.",
                dropped.foreign,
            ),
            (
                "amo_packets_idle_total",
                "Packets that would have changed nothing.",
                dropped.idle,
            ),
            (
                "amo_link_faults_total",
                "Calls of the link that failed.",
                traffic.faults,
            ),
            (
                "amo_journal_bytes_total",
                "Bytes of lines that the journal got.",
                figures.bytes,
            ),
            (
                "amo_journal_pieces_total",
                "Pieces of the journal that were begun.",
                self.counts.pieces,
            ),
        ] {
            push_counter(text, name, help, value)?;
        }
        push_gauge(
            text,
            "amo_open_handshakes",
            "Handshakes that are open.",
            figures.open,
        )
    }
}

/// Appends a measure that only grows.
fn push_counter(text: &mut Vec<u8>, name: &str, help: &str, value: u64) -> Result<(), AllocError> {
    push_measure(text, Measure::Counter, name, help, value)
}

/// Appends a measure of what is now.
fn push_gauge(text: &mut Vec<u8>, name: &str, help: &str, value: u64) -> Result<(), AllocError> {
    push_measure(text, Measure::Gauge, name, help, value)
}

/// Appends a measure: what it is, its kind, and its value.
fn push_measure(
    text: &mut Vec<u8>,
    measure: Measure,
    name: &str,
    help: &str,
    value: u64,
) -> Result<(), AllocError> {
    text.extend_from_slice(b"# HELP ")?;
    text.extend_from_slice(name.as_bytes())?;
    text.extend_from_slice(b" ")?;
    text.extend_from_slice(help.as_bytes())?;
    text.extend_from_slice(b"\n# TYPE ")?;
    text.extend_from_slice(name.as_bytes())?;
    match measure {
        Measure::Counter => text.extend_from_slice(b" counter\n")?,
        Measure::Gauge => text.extend_from_slice(b" gauge\n")?,
    }
    text.extend_from_slice(name.as_bytes())?;
    text.extend_from_slice(b" ")?;
    push_decimal(text, value)?;
    text.extend_from_slice(b"\n")
}
