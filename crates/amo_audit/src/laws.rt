//! Laws of merging: the preferred interleaving is one, and it is there wherever any interleaving is honest; and what the greatest beginnings are.
//!
//! These functions do nothing. Their contracts are facts about the definitions, which callers may use.
ghost use Rattle.std.specs.Prelude.{◌≡◌, ◌++◌, List, reverse};
ghost use Rattle.amo_world.specs.declared.event.Event.{Event};
ghost use Rattle.amo_world.specs.History.{IsHonest};
ghost use Rattle.amo_audit.specs.Merge.{Interleaves, IsPreferred, SharesSide};
ghost use Rattle.amo_audit.specs.Reach.{AreBeginnings};

/// The preferred interleaving is one of the interleavings, and honest; and there is at most one.
pub fn preferred_merges()
    ensures interleaves { (first second merged : List Event) → IsPreferred first second merged → Interleaves first second merged }
    ensures honest { (first second merged : List Event) → IsPreferred first second merged → IsHonest (reverse merged) }
    ensures one { (first second a b : List Event) → IsPreferred first second a → IsPreferred first second b → a ≡ b }
{}

/// Where no side of a stream has events in both lists and some interleaving is honest, the preferred one is there.
pub fn greed_is_complete()
    ensures { (first second merged : List Event) → (¬ (SharesSide first second)) → Interleaves first second merged → IsHonest (reverse merged)
        → (preferred : List Event) × IsPreferred first second preferred }
{}

/// The greatest beginnings of two lists that merge are beginnings of whatever follows: where more events of the same sides follow in both lists,
/// and some interleaving of all is honest, there is one that goes on from theirs.
pub fn beginnings_go_on()
    ensures { (x y first second merged more more' other : List Event) → AreBeginnings x y first second merged → (¬ (SharesSide (x ++ more) (y ++ more')))
        → Interleaves (x ++ more) (y ++ more') other → IsHonest (reverse other)
        → (rest : List Event) × Interleaves (x ++ more) (y ++ more') (merged ++ rest) × IsHonest (reverse (merged ++ rest)) }
{}

/// And they are the greatest: any other beginnings of both lists of which some interleaving is honest are beginnings of them.
pub fn beginnings_are_greatest()
    ensures { (x y first second merged a b behind behind' other : List Event) → AreBeginnings x y first second merged → (¬ (SharesSide x y))
        → x ≡ a ++ behind → y ≡ b ++ behind' → Interleaves a b other → IsHonest (reverse other)
        → ((more : List Event) × (first ≡ a ++ more)) × ((more : List Event) × (second ≡ b ++ more)) }
{}
