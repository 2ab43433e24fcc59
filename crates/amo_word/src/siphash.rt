//! SipHash-2-4, as in Aumasson and Bernstein, "SipHash: a fast short-input PRF" (2012), of short messages.
ghost use Rattle.std.specs.Prelude.{◌≡◌, [], ◌∷◌};
ghost use Rattle.amo_word.specs.SipHash.{initial, sip_round, absorbed, finished, siphash};

use rand_core::utils;

/// The internal state, with the paper's names.
#[derive(Drop)]
struct State {
    v0: u64,
    v1: u64,
    v2: u64,
    v3: u64,
}

/// The hash of a message of at most seven bytes, which is parsed into one word: its bytes, the low one first, and on
/// top of them how many they are.
pub(crate) fn hash(key: &[u8; 16], message: u64) -> u64
    ensures { result ≡ siphash key.now (message ∷ []) }
{
    let mut state = State::new(key);
    state.absorb(message);
    state.finish()
}

impl State {
    fn new(key: &[u8; 16]) -> State
        ensures { result ≡ initial key.now }
    {
        let k0 = utils::read_u64(key, 0);
        let k1 = utils::read_u64(key, 1);
        State {
            v0: k0 ^ 0x736f_6d65_7073_6575,
            v1: k1 ^ 0x646f_7261_6e64_6f6d,
            v2: k0 ^ 0x6c79_6765_6e65_7261,
            v3: k1 ^ 0x7465_6462_7974_6573,
        }
    }

    fn absorb(&mut self, word: u64)
        ensures { self.new ≡ absorbed self.old word }
    {
        self.v3 ^= word;
        self.round();
        self.round();
        self.v0 ^= word;
    }

    fn finish(mut self) -> u64
        ensures { result ≡ finished self }
    {
        self.v2 ^= 0xff;
        self.round();
        self.round();
        self.round();
        self.round();
        self.v0 ^ self.v1 ^ self.v2 ^ self.v3
    }

    /// A SipRound.
    #[tactic(auto, unfolding(crate::specs::SipHash::sip_round))]
    fn round(&mut self)
        ensures { self.new ≡ sip_round self.old }
    {
        self.v0 = self.v0.wrapping_add(self.v1);
        self.v2 = self.v2.wrapping_add(self.v3);
        self.v1 = self.v1.rotate_left(13) ^ self.v0;
        self.v3 = self.v3.rotate_left(16) ^ self.v2;
        self.v0 = self.v0.rotate_left(32);
        self.v2 = self.v2.wrapping_add(self.v1);
        self.v0 = self.v0.wrapping_add(self.v3);
        self.v1 = self.v1.rotate_left(17) ^ self.v2;
        self.v3 = self.v3.rotate_left(21) ^ self.v0;
        self.v2 = self.v2.rotate_left(32);
    }
}
