//! Windows and their permits.
ghost use Rattle.std.specs.Prelude.{◌≡◌, ◌≢◌, ◌↔◌, ◌⊎◌, ◌+◌, ◌<◌, ◌≤◌, None, IsNone, IfSome, IfOk, IfNone, OnSome, IsErrOf};
ghost use Rattle.std.specs.FinMap as map;
ghost use Rattle.amo_window.specs.Window.{Entry};

use crate::WindowFault;
use slab::Slab;
use std::alloc::Global;
use std::marker::Model;

/// The greatest limit of a window.
pub const MAX_PERMITS: usize = 64;

/// The right to hold one handshake open. Contracts see its key and its stream.
///
/// It is no `Copy` and no `Drop`, and only a [`Window`] makes one: whoever has it must give it back, by
/// [`Window::close`].
pub struct Permit {
    key: usize,
    stream: u32,
}

impl Model for Permit {
    ghost use Rattle.amo_window.specs.Window.{Entry};

    ghost Value = { Entry };

    ghost view = { λ p. record { key = p.key; stream = p.stream } };
}

impl Permit {
    /// The stream that the permit was opened for.
    pub fn stream(&self) -> u32
        ensures { result ≡ self.now.stream }
    {
        self.stream
    }

    /// The key under which its window has it. No other permit that is out of that window has the same.
    pub fn key(&self) -> usize
        ensures { result ≡ self.now.key }
    {
        self.key
    }
}

/// Gives out permits, as many at once as its limit says. Contracts see the limit, and the stream of each permit that
/// is out under its key.
///
/// The room is made once, by [`Window::new`]; no other call takes memory. Each call takes a constant time.
#[derive(Drop)]
pub struct Window {
    // The stream of each permit that is out, under the permit's key.
    permits: Slab<u32>,
    limit: usize,
}

impl Model for Window {
    ghost use Rattle.amo_window.specs.Window.{Permits, permits_code, by_key, IsWithin};

    ghost Value = { Permits };

    ghost coded = { permits_code };

    ghost view = { λ w. record { limit = w.limit; streams = by_key w.permits } };

    ghost invariant = { λ w. IsWithin w.permits w.limit };
}

impl Window {
    ghost use Rattle.amo_window.specs.Window.{most_permits, out, Holds, StayOut, unopened, opened, closed};

    /// A window from which at most `limit` permits are out at once, with room for no more. The limit is 1 to
    /// [`MAX_PERMITS`].
    pub fn new(alloc: Global, limit: usize) -> Result<Window, WindowFault>
        ensures ok { IfOk result (λ w. (w ≡ unopened limit) × (1 ≤ limit) × (limit ≤ most_permits)) }
        ensures none { IfOk result (λ w. out w ≡ 0) }
        ensures limits { IsErrOf result WindowFault.Limits ↔ ((limit ≡ 0) ⊎ (most_permits < limit)) }
        ensures memory { IsErrOf result WindowFault.NoMemory → (1 ≤ limit) × (limit ≤ most_permits) }
    {
        if limit == 0 || limit > MAX_PERMITS {
            return Err(WindowFault::Limits);
        }
        let permits = Slab::with_capacity(alloc, limit)?;
        Ok(Window { permits, limit })
    }

    /// A permit for this stream, under a key that no other has. None, and nothing changed, exactly where as many are
    /// out as the limit says. One stream may have several.
    pub fn open(&mut self, stream: u32) -> Option<Permit>
        ensures full { IsNone result ↔ (out self.old ≡ self.old.limit) }
        ensures stream { IfSome result (λ permit. permit.stream ≡ stream) }
        ensures fresh { IfSome result (λ permit. map.get self.old.streams permit.key ≡ None) }
        ensures opened { IfSome result (λ permit. self.new ≡ opened self.old permit) }
        ensures unchanged { IfNone result (self.new ≡ self.old) }

        // The permit is one of this window's. Each that was out still is, and has another key.
        ensures held { IfSome result (Holds self.new) }
        ensures others { IfSome result (λ permit. StayOut self.old self.new permit) }
        ensures count { OnSome result (out self.new ≡ out self.old + 1) }
        ensures bounded { out self.new ≤ self.new.limit }
    {
        if self.permits.len() == self.limit {
            return None;
        }
        let key = self.permits.insert_reserved(stream);
        Some(Permit { key, stream })
    }

    /// Takes back a permit of this window. Contracts tell permits by key and stream: one of another window that has
    /// both would be taken too, and whose it is the caller has to know.
    pub fn close(&mut self, permit: Permit)
        requires { Holds self.old permit }
        ensures closed { self.new ≡ closed self.old permit }
        ensures others { (other : Entry) → Holds self.old other → other.key ≢ permit.key → Holds self.new other }
        ensures count { out self.new + 1 ≡ out self.old }
    {
        let Permit { key, stream: _ } = permit;
        self.permits.remove(key);
    }

    /// How many permits are out, at most as many as the limit says.
    #[tactic(auto, using(crate::proofs::Permits::len_of))]
    pub fn out(&self) -> usize
        ensures count { result ≡ out self.now }
        ensures bounded { result ≤ self.now.limit }
        ensures limit { (1 ≤ self.now.limit) × (self.now.limit ≤ most_permits) }
    {
        self.permits.len()
    }
}
