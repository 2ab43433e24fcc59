//! Borders of the messages that a stretch of calls gets: of the last ones so many that the first ones are the same.
ghost use Rattle.std.specs.Prelude.{◌≡◌, ◌↔◌, ◌+◌, ◌-◌, ◌<◌, ◌≤◌, ◌^◌, [], ◌∷◌, length, get_or, IfOk, IsTrue};
ghost use Rattle.amo_resolve.specs.Plan.{IsLongest, AreBorders, IsLonger};

use crate::waiting::{Got, is_same};
use std::alloc::{AllocError, Global};

/// For each number of the last messages of a stretch how long their longest border is that is not all of them. The messages grow
/// at their front, and this list with them: of no message none is told, and a zero stands for it.
#[derive(Drop)]
pub(crate) struct Borders {
    pub(crate) lengths: Vec<usize>,
}

impl Borders {
    /// Of no messages.
    pub(crate) fn nothing(alloc: Global) -> Result<Borders, AllocError>
        ensures { IfOk result (λ borders. borders.lengths.items ≡ 0 ∷ []) }
    {
        let mut lengths = Vec::new(alloc);
        lengths.push(0)?;
        Ok(Borders { lengths })
    }

    /// Those of a stretch that gets so many messages: as many as before, fewer, or one more, which comes before those up to `end`.
    pub(crate) fn fit(&mut self, here: usize, got: &Got<'_>, end: usize) -> Result<(), AllocError>
        requires borders { AreBorders got.now end self.old.lengths.items }
        requires within { (0 < length self.old.lengths.items) × (here ≤ length self.old.lengths.items) × (here ≤ end) × (end ≤ length got.now) }
        ensures borders { IfOk result (λ _. AreBorders got.now end self.new.lengths.items) }
        ensures length { IfOk result (λ _. length self.new.lengths.items ≡ here + 1) }
    {
        if here < self.lengths.len() {
            self.lengths.truncate(here + 1);
            return Ok(());
        }
        let longest = self.next(got, end);
        self.lengths.push(longest)?;
        Ok(())
    }

    /// How long the longest border is of some of the last messages before a place with this message before it, where that is one of
    /// the last `limit` messages. The others are the longest border of `few` of them, or all of these.
    pub(crate) fn longer(
        &self,
        got: &Got<'_>,
        end: usize,
        limit: usize,
        few: usize,
        message: &[u8],
    ) -> usize
        requires borders { AreBorders got.now end self.now.lengths.items }
        requires few { (few ≤ limit) × (few < length self.now.lengths.items) }
        requires end { (limit ≤ end) × (end ≤ length got.now) × (limit < 2 ^ 64 - 1) }
        ensures { IsLonger got.now end limit few message.now result }
    {
        let mut border = few;
        while !comes_before(got, end, limit, border, message) {
            if border == 0 {
                return 0;
            }
            border = self.lengths[border];
        }
        border + 1
    }

    /// How long the longest border is, but for all of them, of one message more than are told of.
    fn next(&self, got: &Got<'_>, end: usize) -> usize
        requires borders { AreBorders got.now end self.now.lengths.items }
        requires within { (0 < length self.now.lengths.items) × (length self.now.lengths.items ≤ end) × (end ≤ length got.now) }
        ensures { IsLongest got.now end result (length self.now.lengths.items) }
    {
        let count = self.lengths.len();
        let here = count - 1;
        if here == 0 {
            return 0;
        }
        let few = self.lengths[here];
        let message = got.at(end - 1 - here);
        self.longer(got, end, here, few, message)
    }
}

/// Whether this message comes right before so many of the last ones before a place, and is one of the last `limit`.
fn comes_before(got: &Got<'_>, end: usize, limit: usize, many: usize, message: &[u8]) -> bool
    requires { (limit ≤ end) × (end ≤ length got.now) }
    ensures { IsTrue result ↔ (many < limit) × (get_or got.now (end - 1 - many) [] ≡ message.now) }
{
    many < limit && is_same(got.at(end - 1 - many), message)
}
