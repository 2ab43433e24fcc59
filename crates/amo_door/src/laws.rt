//! Laws of the turns of a life, what callers can rely on however often they ask again and whoever else asks; and of paths, which lead to places.
//!
//! These functions do nothing. Their contracts are facts about the definitions, which callers may use.
ghost use Rattle.std.specs.Prelude.{◌≡◌, ◌+◌, ◌≤◌, ◌==◌, ◌∷◌, [], codes, ℕ, List, Option, Some, None};
ghost use Rattle.std.specs.List.{Contains, count_by};
ghost use Rattle.amo_door.specs.declared.claim.Claim.{Claim};
ghost use Rattle.amo_door.specs.declared.claim.Decision.TheVariants as Decision;
ghost use Rattle.amo_door.specs.declared.claim.Made.{Made};
ghost use Rattle.amo_door.specs.Numbers.{decision, number_of};
ghost use Rattle.amo_door.specs.declared.place.Place.TheVariants as Place;
ghost use Rattle.amo_door.specs.Routes.{LeadsTo};
ghost use Rattle.amo_door.specs.Turns.{Answer, AreNumbered, AreRight, Claimed, IsMadeFor, Turn, all_made, fresh, last_made, told};

/// What is made on a stream has the numbers from 1 on, in their order. So each number is made once at most.
pub fn numbers_are_in_order()
    ensures order { (life : List ℕ) (turns : List Turn) (stream : ℕ) → AreRight life turns → AreNumbered (all_made stream turns) }
    ensures once { (life : List ℕ) (turns : List Turn) (stream number : ℕ) → AreRight life turns → count_by (λ made. made.number == number) (all_made stream turns) ≤ 1 }
{}

/// A caller that is told that something was made for its claim is told the truth: it was made on its stream, under its number, for it alone, and with
/// the message that it brought.
pub fn what_is_told_was_made()
    ensures made { (life : List ℕ) (turns : List Turn) (claim : Claim) (brings : Option (List ℕ)) (answer : Answer) (made : Made) → AreRight life turns
        → Contains turns (Claimed claim brings answer) → told answer ≡ Some made → Contains (all_made claim.stream turns) made }
    ensures for_it { (life : List ℕ) (turns : List Turn) (claim : Claim) (brings : Option (List ℕ)) (answer : Answer) (made : Made) → AreRight life turns
        → Contains turns (Claimed claim brings answer) → told answer ≡ Some made → IsMadeFor claim brings made }
{}

/// Of two claims for one number of a stream that are both told that something was made for them, both are told the same, and one caller made both.
pub fn no_two_callers_are_told()
    ensures same { (life : List ℕ) (turns : List Turn) (claim other : Claim) (brings brought : Option (List ℕ)) (answer given : Answer) (made again : Made) → AreRight life turns
        → Contains turns (Claimed claim brings answer) → Contains turns (Claimed other brought given) → told answer ≡ Some made → told given ≡ Some again
        → other.stream ≡ claim.stream → other.number ≡ claim.number → again ≡ made }
    ensures one_caller { (life : List ℕ) (turns : List Turn) (claim other : Claim) (brings brought : Option (List ℕ)) (answer given : Answer) (made again : Made) → AreRight life turns
        → Contains turns (Claimed claim brings answer) → Contains turns (Claimed other brought given) → told answer ≡ Some made → told given ≡ Some again
        → other.stream ≡ claim.stream → other.number ≡ claim.number → other.by ≡ claim.by }
{}

/// A claim for what was made last on its stream, asked for again, is known again: so a caller whose answer was lost asks again until it has one.
pub fn repeats_are_known()
    ensures { (life : List ℕ) (turns : List Turn) (claim : Claim) (brings : Option (List ℕ)) (made : Made) → claim.life ≡ life
        → last_made claim.stream turns ≡ Some made → IsMadeFor claim brings made → decision life (last_made claim.stream turns) claim brings ≡ Decision.Again }
{}

/// The next number of a stream is free for the first who claims it.
pub fn next_numbers_are_free()
    ensures { (life : List ℕ) (turns : List Turn) (claim : Claim) (brings : Option (List ℕ)) → claim.life ≡ life
        → claim.number ≡ number_of (last_made claim.stream turns) + 1 → decision life (last_made claim.stream turns) claim brings ≡ Decision.Next }
{}

/// An answer that tells of nothing new made nothing, on any stream.
pub fn repeats_make_nothing()
    ensures { (turns : List Turn) (claim : Claim) (brings : Option (List ℕ)) (answer : Answer) (stream : ℕ) → fresh answer ≡ None
        → all_made stream (Claimed claim brings answer ∷ turns) ≡ all_made stream turns }
{}

/// Of each place one path, as the router finds it, with what stands in it for a stream and for a number.
pub fn paths_lead_to_places()
    ensures page { LeadsTo (codes "/") Place.Page [] [] }
    ensures health { LeadsTo (codes "/healthz") Place.Health [] [] }
    ensures metrics { LeadsTo (codes "/metrics") Place.Metrics [] [] }
    ensures host { LeadsTo (codes "/v1") Place.Host [] [] }
    ensures events { LeadsTo (codes "/v1/events") Place.Events [] [] }
    ensures stream { LeadsTo (codes "/v1/streams/3") Place.Stream (codes "3") [] }
    ensures messages { LeadsTo (codes "/v1/streams/3/messages") Place.Messages (codes "3") [] }
    ensures message { LeadsTo (codes "/v1/streams/3/messages/18") Place.Message (codes "3") (codes "18") }
    ensures take { LeadsTo (codes "/v1/streams/3/take") Place.Take (codes "3") [] }
    ensures got { LeadsTo (codes "/v1/streams/3/got") Place.Got (codes "3") [] }
{}
