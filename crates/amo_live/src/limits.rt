//! When a host ends, and how it did.

/// When a host ends, and what it does before packets leave.
#[derive(Clone, Copy)]
pub struct Limits {
    /// It ends once it got as many messages.
    pub count: Option<u64>,
    /// At its end it waits so many microseconds at most for what is still on its way.
    pub wait: Option<u64>,
    /// Without that, it waits no longer than a moment.
    pub lingers: bool,
    /// The journal is put on its disk once a turn, before packets leave.
    pub sync: bool,
    /// It tells its figures each time that so many microseconds have passed, and at its end.
    pub stats: Option<u64>,
}

/// How a host ended.
#[derive(Clone, Copy, PartialEq, Eq)]
pub enum Ended {
    /// Nothing was on its way.
    AtRest,
    /// Something was still on its way.
    OnItsWay,
    /// Nothing was on its way, and the last line had no end: it was not put.
    Torn,
}
