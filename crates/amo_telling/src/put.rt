//! A put that was taken.
ghost use Rattle.amo_world.specs.Stream.{IsStream};

/// A put that was taken, and that no ack answered.
#[derive(Drop)]
pub(crate) struct Put {
    pub(crate) stream: u32,
    /// How many the stream took before it.
    pub(crate) place: usize,
    pub(crate) message: Vec<u8>,
    ghost named: { IsStream stream },
}
