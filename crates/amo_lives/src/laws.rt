//! Laws of the file of lives: bytes tell of one list of lives at most, what is wrong with them is a matter of them alone, and one life more is one
//! line more.
//!
//! These functions do nothing. Their contracts are facts about the definitions, which callers may use.
ghost use Rattle.std.specs.Prelude.{◌≡◌, ◌≢◌, ◌∷◌, ◌++◌, [], ℕ, List};
ghost use Rattle.amo_object.specs.declared.step.End.{End};
ghost use Rattle.amo_lives.specs.declared.fault.LivesFault.{LivesFault};
ghost use Rattle.amo_lives.specs.declared.life.Life.{Life};
ghost use Rattle.amo_lives.specs.Fault.{Faults};
ghost use Rattle.amo_lives.specs.Life.{InRange, line_text};
ghost use Rattle.amo_lives.specs.Lives.{AreLives, LivesState, MayFollow, Tells, text_of_lives, with_life};

/// Bytes tell of one list of lives at most, of one side and one key.
pub fn lives_are_unambiguous()
    ensures { (bytes : List ℕ) (first second : LivesState) → Tells first bytes → Tells second bytes → first ≡ second }
{}

/// Bytes that have a fault for a host of a side tell of no lives of that side, and have no other fault.
pub fn faults_are_no_lives()
    ensures none { (side : End) (bytes : List ℕ) (fault : LivesFault) (s : LivesState) → fault ≢ LivesFault.NoMemory → Faults side bytes fault → s.side ≡ side → ¬ (Tells s bytes) }
    ensures one { (side : End) (bytes : List ℕ) (fault other : LivesFault) → fault ≢ LivesFault.NoMemory → other ≢ LivesFault.NoMemory → Faults side bytes fault → Faults side bytes other → fault ≡ other }
{}

/// A life that may come after others is one line more of their file.
pub fn one_life_is_one_line()
    ensures lives { (lives : List Life) (life : Life) → AreLives lives → InRange life → MayFollow lives life → AreLives (lives ++ life ∷ []) }
    ensures text { (s : LivesState) (life : Life) → text_of_lives (with_life s life) ≡ text_of_lives s ++ line_text life }
{}
