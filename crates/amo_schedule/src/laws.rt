//! Laws of schedules: each line has one spelling, and where a schedule is malformed is a matter of its bytes alone.
//!
//! These functions do nothing. Their contracts are facts about the definitions, which callers may use.
ghost use Rattle.std.specs.Prelude.{◌≡◌, ℕ, List};
ghost use Rattle.amo_schedule.specs.Schedule.{InRange, IsMalformedAt, spelling_of, SpellsSchedule};
ghost use Rattle.amo_schedule.specs.declared.line.ScheduleLine.{ScheduleLine};

/// Two lines have two spellings.
pub fn spelling_is_injective()
    ensures { (k l : ScheduleLine) → InRange k → InRange l → spelling_of k ≡ spelling_of l → k ≡ l }
{}

/// Bytes with a malformed line are no schedule, and one line of theirs is the first.
pub fn malformed_is_no_schedule()
    ensures none { (bytes : List ℕ) (number : ℕ) (lines : List ScheduleLine) → IsMalformedAt bytes number → ¬ (SpellsSchedule bytes lines) }
    ensures one { (bytes : List ℕ) (m n : ℕ) → IsMalformedAt bytes m → IsMalformedAt bytes n → m ≡ n }
{}
