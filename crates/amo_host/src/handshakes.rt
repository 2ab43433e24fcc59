//! The handshakes that a host holds open.
ghost use Rattle.std.specs.Prelude.{◌≡◌, ◌≢◌, ◌↔◌, ◌<◌, ◌≤◌, ◌+◌, ◌⊎◌, [], IsTrue, IfOk, IsErrOf, Some, None, true, is_some, if◌then◌else◌, ℕ, length, replicate, slice_set, slice_index_or, vec_capacity};
ghost use Rattle.amo_window.specs.Window.{most_permits, out};
ghost use Rattle.amo_host.specs.Handshakes.{AreOut};

use amo_window::{Permit, Window, WindowFault};
use std::alloc::Global;
use std::marker::Model;

/// The permits of a host, each in the place of its charge. Contracts see the limit, and the stream of the permit in
/// each place.
pub struct Handshakes {
    window: Window,
    limit: usize,
    permits: Vec<Option<Permit>>,
}

impl Model for Handshakes {
    ghost use Rattle.amo_host.specs.Handshakes.{Held};

    ghost Value = { Held };

    ghost use Rattle.amo_host.specs.Handshakes.{held_of, AreOut};

    ghost view = { λ h. held_of h.limit h.permits.items };

    ghost invariant = { λ h. AreOut h.window h.limit h.permits.items };
}

impl Handshakes {
    ghost use Rattle.amo_host.specs.Handshakes.{open_count};

    /// No permit in any of these places.
    pub fn new(alloc: Global, limit: usize, places: usize) -> Result<Handshakes, WindowFault>
        ensures ok { IfOk result (λ h. (h.limit ≡ limit) × (h.streams ≡ replicate places None)) }
        ensures limits { IsErrOf result WindowFault.Limits → (limit ≡ 0) ⊎ (most_permits < limit) }
    {
        let window = Window::new(alloc, limit)?;
        let Ok(mut permits) = Vec::with_capacity(alloc, places) else {
            return Err(WindowFault::NoMemory);
        };
        for _place in 0..places {
            permits.push_reserved(None);
        }
        Ok(Handshakes {
            window,
            limit,
            permits,
        })
    }

    /// Whether a permit is free.
    pub fn is_free(&self) -> bool
        ensures free { IsTrue result ↔ (open_count self.now.streams < self.now.limit) }
        ensures bounded { open_count self.now.streams ≤ self.now.limit }
    {
        self.window.out() < self.limit
    }

    /// Takes a permit for this stream, in this place.
    pub fn open(&mut self, place: usize, stream: u32)
        requires place { place < length self.old.streams }
        requires vacant { slice_index_or self.old.streams place None ≡ None }
        requires free { open_count self.old.streams < self.old.limit }
        ensures set { self.new ≡ record self.old { streams = slice_set self.old.streams place (Some stream) } }
        ensures bounded { open_count self.new.streams ≤ self.new.limit }
    {
        let Some(permit) = self.window.open(stream) else {
            unreachable!()
        };
        if let Some(other) = self.permits[place].replace(permit) {
            self.window.close(other);
        }
    }

    /// Gives the permit of this place back.
    pub fn close(&mut self, place: usize)
        requires { place < length self.old.streams }
        ensures set { self.new ≡ record self.old { streams = slice_set self.old.streams place None } }
        ensures bounded { open_count self.new.streams ≤ self.new.limit }
    {
        if let Some(permit) = self.permits[place].take() {
            self.window.close(permit);
        }
    }

    /// Whether a permit is out in this place.
    fn holds(&self, place: usize) -> bool
        requires { place < length self.now.streams }
        ensures holds { result ≡ is_some (slice_index_or self.now.streams place None) }
        ensures bounded { open_count self.now.streams ≤ self.now.limit }
    {
        self.permits[place].is_some()
    }

    /// The stream has a permit in this place from now on, or has none.
    pub fn set(&mut self, place: usize, stream: u32, is_open: bool)
        requires place { place < length self.old.streams }
        requires own { (s : ℕ) → slice_index_or self.old.streams place None ≡ Some s → s ≡ stream }
        requires free { is_open ≡ true → slice_index_or self.old.streams place None ≡ None → open_count self.old.streams < self.old.limit }
        ensures set { self.new ≡ record self.old { streams = slice_set self.old.streams place (if is_open then Some stream else None) } }
        ensures bounded { open_count self.new.streams ≤ self.new.limit }
    {
        if !is_open {
            self.close(place);
        } else if !self.holds(place) {
            self.open(place, stream);
        }
    }
}

/// Gives all permits back.
impl Drop for Handshakes {
    fn drop(self) {
        let Handshakes {
            mut window,
            limit: _,
            permits,
        } = self;
        give_back(&mut window, permits);
    }
}

/// Gives all permits back to their window.
fn give_back(window: &mut Window, permits: Vec<Option<Permit>>)
    requires { AreOut window.old window.old.limit permits.items }
    ensures { out window.new ≡ 0 }
{
    let mut permits = permits;
    while let Some(permit) = permits.pop() {
        if let Some(permit) = permit {
            window.close(permit);
        }
    }
    permits.destroy_empty();
}
