//! The word of a pump's next event.
ghost use Rattle.std.specs.Prelude.{◌≡◌};

use amo_word::Words;

/// The word that a host gives its pump for the next event, or none: a host's words come in lives, and each is drawn as an event needs it.
#[derive(Drop)]
pub struct GivenWord {
    pub(crate) word: Option<u64>,
}

impl Words for GivenWord {
    ghost use Rattle.amo_live.specs.Host.{given};

    ghost to_come = { λ words. given words.word };

    fn next(&mut self) -> Option<u64> {
        self.word.take()
    }
}
