//! What every run of the queue promises. A law is a function that does nothing: its contract is the law,
//! and is proved like any other.
ghost use Rattle.std.specs.Prelude.{◌≡◌, ◌≤◌, ℕ, true, false, List, [], ◌∷◌, ◌++◌, length, Contains};
ghost use Rattle.amo_object.specs.declared.step.Step.{Step};
ghost use Rattle.amo_object.specs.declared.step.Step.TheVariants.{Put, Ack, Lose};
ghost use Rattle.amo_object.specs.Queue.{QueueState, start, is_any_down, status_of};
ghost use Rattle.amo_object.specs.Example.{beginning, life, seen_of_life};
ghost use Rattle.amo_object.specs.Run.{IsRunFrom, IsRun, after_all, without_losses, IsCrashFree};
ghost use Rattle.amo_object.specs.Delivery.{messages_put, messages_got, IsSubsequence};

/// A run continued by a run from where it leads is a run, and leads where the second leads.
pub fn joined_runs_are_runs()
    ensures run { (s : QueueState) (first more : List Step) →
        IsRunFrom s first → IsRunFrom (after_all s first) more → IsRunFrom s (first ++ more) }
    ensures state { (s : QueueState) (first more : List Step) →
        after_all s (first ++ more) ≡ after_all (after_all s first) more }
{}

/// A beginning of a run is a run, and so is the rest of it from where the beginning leads.
pub fn parts_of_runs_are_runs()
    ensures beginning { (s : QueueState) (first more : List Step) →
        IsRunFrom s (first ++ more) → IsRunFrom s first }
    ensures rest { (s : QueueState) (first more : List Step) →
        IsRunFrom s (first ++ more) → IsRunFrom (after_all s first) more }
{}

/// Leaving the losses out of two lists of steps joined is joining what is left of each.
pub fn losses_are_left_out_part_by_part()
    ensures { (first more : List Step) →
        without_losses (first ++ more) ≡ without_losses first ++ without_losses more }
{}

/// While both sides are up and no host crashes, a run has no loss: what waited or is put is what is got
/// and still waits.
pub fn nothing_is_lost_while_both_sides_are_up()
    ensures no_loss { (s : QueueState) (run : List Step) →
        is_any_down s ≡ false → IsCrashFree run → IsRunFrom s run → without_losses run ≡ run }
    ensures nothing_missing { (s : QueueState) (run : List Step) →
        is_any_down s ≡ false → IsCrashFree run → IsRunFrom s run →
        s.messages ++ messages_put run ≡ messages_got run ++ (after_all s run).messages }
{}

/// The messages got are, in order and each at most once, among the messages put, whatever crashes and is
/// lost: in the run, and in what clients see of it.
pub fn messages_are_got_in_order_and_at_most_once()
    ensures run { (run : List Step) → IsRun run → IsSubsequence (messages_got run) (messages_put run) }
    ensures seen { (run : List Step) →
        IsRun run → IsSubsequence (messages_got (without_losses run)) (messages_put (without_losses run)) }
{}

/// Where clients see the reply yes, the last message put was got: it is the last one got since it was put.
pub fn yes_means_that_the_last_message_was_got()
    ensures { (run before later : List Step) (m : List ℕ) →
        IsRun run → without_losses run ≡ before ++ Put m ∷ later ++ Ack true ∷ [] → messages_put later ≡ [] →
        (earlier : List (List ℕ)) × (messages_got later ≡ earlier ++ m ∷ []) }
{}

/// A subsequence has no message that the list lacks and is no longer than it; where it is as long, it is the
/// whole list. So none of its messages is repeated, and none is out of order.
pub fn subsequences_repeat_nothing()
    ensures contained { (some all : List (List ℕ)) (m : List ℕ) →
        IsSubsequence some all → Contains some m → Contains all m }
    ensures shorter { (some all : List (List ℕ)) → IsSubsequence some all → length some ≤ length all }
    ensures whole { (some all : List (List ℕ)) → IsSubsequence some all → length some ≡ length all → some ≡ all }
{}

/// One life of a queue with two losses: what it is as a run, and what clients see of it.
pub fn one_life_of_a_queue()
    ensures run { IsRun life }
    ensures end { after_all start life ≡ record start { status = status_of false } }
    ensures seen { without_losses life ≡ seen_of_life }
    ensures put { messages_put life ≡ (1 ∷ []) ∷ (2 ∷ []) ∷ (3 ∷ []) ∷ [] }
    ensures got { messages_got life ≡ (1 ∷ []) ∷ (3 ∷ []) ∷ [] }
    ensures without_crash { IsCrashFree beginning × (¬ (IsCrashFree life)) }
    ensures no_loss_while_up { ¬ (IsRun (beginning ++ Lose 0 ∷ [])) }
{}
