//! A way to a door that is there for so long.
use std::io::{self, Read, Write};
use std::net::TcpStream;
use std::rt::Clock;
use std::time::{Duration, Instant};

/// A way to a door, over which nothing is read or written once its time is over. A time for each read alone would not do: who sends a byte now and then, or
/// heads of answers that are still to come, would be waited for without end.
#[derive(Drop)]
pub(crate) struct Timely<'a, R> {
    rt: &'a R,
    stream: TcpStream,
    since: Instant,
    longest: Duration,
}

impl<'a, R: Clock> Timely<'a, R> {
    /// This way, for so long from now on.
    pub(crate) fn new(
        rt: &'a R,
        stream: TcpStream,
        longest: Duration,
    ) -> io::Result<Timely<'a, R>> {
        Ok(Timely {
            rt,
            stream,
            since: Instant::now(rt)?,
            longest,
        })
    }

    /// How long it is there still. A socket takes no time of nought: with that a read or a write fails.
    fn left(&self) -> io::Result<Duration> {
        Ok(self.longest.saturating_sub(self.since.elapsed(self.rt)?))
    }
}

impl<R: Clock> Read for Timely<'_, R> {
    fn read(&mut self, to: &mut [u8]) -> io::Result<usize> {
        self.stream.set_read_timeout(Some(self.left()?))?;
        self.stream.read(to)
    }
}

impl<R: Clock> Write for Timely<'_, R> {
    fn write(&mut self, bytes: &[u8]) -> io::Result<usize> {
        self.stream.set_write_timeout(Some(self.left()?))?;
        self.stream.write(bytes)
    }

    fn flush(&mut self) -> io::Result<()> {
        self.stream.flush()
    }
}
