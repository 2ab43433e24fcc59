//! Where the words of a run come from.
use amo_object::End;
use amo_word::ChaChaWords;

/// One host's place among all that draw words from the seed of a run.
#[derive(Clone, Copy)]
pub struct Source {
    pub seed: [u8; 32],
    pub side: End,
    /// The number of the pump, from 0.
    pub pump: u32,
}

impl Source {
    /// The words of a pump in an incarnation of its host, both from 0. Each has a key stream of its own.
    pub fn words(&self, incarnation: u32) -> ChaChaWords {
        let host = match self.side {
            End::Sender => 0,
            End::Receiver => 256,
        };
        let stream = incarnation as u64 * 65_536 + host + self.pump as u64 + 1;
        ChaChaWords::new(self.seed, stream)
    }
}

/// The words of the channel in memory of a pair of pumps.
pub fn channel_words(seed: [u8; 32], pump: u32) -> ChaChaWords {
    let stream = match pump {
        0 => 0,
        _ => 128 + pump as u64,
    };
    ChaChaWords::new(seed, stream)
}
