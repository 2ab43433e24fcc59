//! When a host goes down and comes up again.

/// After so many turns of its pump a host goes down, then after so many more again, and so on.
const TURNS_TO_A_CRASH: u64 = 50;
/// So many turns later it is up again.
const TURNS_DOWN: u64 = 10;

/// What happens to a host.
#[derive(Clone, Copy, Debug, PartialEq, Eq)]
pub enum Fate {
    Crash,
    Recover,
}

/// The crashes of one host that are to come, counted by the turns of a pump.
#[derive(Clone, Copy, PartialEq, Eq)]
pub struct Plan {
    crashes: u32,
    over: u32,
    is_down: bool,
}

impl Plan {
    /// So many crashes, each with its recovery.
    pub fn new(crashes: u32) -> Plan {
        Plan {
            crashes,
            over: 0,
            is_down: false,
        }
    }

    /// Whether all crashes and recoveries have happened.
    pub fn is_over(&self) -> bool {
        self.over >= self.crashes
    }

    /// What happens after so many turns, if anything.
    pub fn after(&mut self, turns: u64) -> Option<Fate> {
        if self.is_over() {
            return None;
        }
        let crash = (self.over as u64 + 1) * TURNS_TO_A_CRASH;
        if self.is_down {
            if turns < crash + TURNS_DOWN {
                return None;
            }
            self.is_down = false;
            self.over = self.over.saturating_add(1);
            return Some(Fate::Recover);
        }
        if turns < crash {
            return None;
        }
        self.is_down = true;
        Some(Fate::Crash)
    }
}
