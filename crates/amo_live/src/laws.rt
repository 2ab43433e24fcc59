//! Laws of what a sender keeps of its journal. Each is the contract of a function that does nothing.
ghost use Rattle.std.specs.Prelude.{◌≡◌, ◌∷◌, ◌++◌, ℕ, List, map};
ghost use Rattle.amo_world.specs.declared.event.Event.{Event};
ghost use Rattle.amo_outcomes.specs.OpenEvents.{open_events};
ghost use Rattle.amo_outcomes.specs.StandsFor.{IsCrashOf};
ghost use Rattle.amo_live.specs.OpenLines.{AreAt, event_of, open_lines};

/// The open lines of a stream are the lines of the events that tell of its messages without an answer, one for each of these and in their order: each with
/// the number of its event's line.
pub fn open_lines_are_those_of_open_events()
    ensures events { (first standing stream : ℕ) (history : List Event) → map event_of (open_lines first standing stream history) ≡ open_events stream history }
    ensures places { (first standing stream : ℕ) (history : List Event) → AreAt first standing history (open_lines first standing stream history) }
{}

/// What was before a crash of a stream's sender is of no account for its open events: a host that goes on after a crash keeps the lines that the whole journal
/// would have it keep.
pub fn a_crash_leaves_nothing_open()
    ensures { (number : ℕ) (newer older others : List Event) (crash : Event) → IsCrashOf number crash → open_events number (newer ++ crash ∷ older) ≡ open_events number (newer ++ crash ∷ others) }
{}
