//! The rule of the table, and what each kind of step tells.
ghost use Rattle.std.specs.Prelude.{length};
ghost use Rattle.amo_book.specs.Rule.{Kept, first_view, state_at};
ghost use Rattle.amo_book.specs.Plays.{looked, saw, tried, freed, counted, first_share, other_shares, joined, bare, witness, same_view};

use crate::slot::Housed;
use crate::view::{Setup, View};
use atomic_table::{Join, Play, Split, TableRule};
use std::marker::{Brand, PhantomData};

/// One right history stands behind every view.
pub struct Law;

impl TableRule<Option<Housed>, View, Setup> for Law {
    ghost holds = { λ key. Kept (length key.sides.items) key.passes (state_at key.sides.items) };

    ghost first = { λ key. first_view key.passes };
}

/// How many passes the book has.
pub trait Peopled {
    ghost use Rattle.std.specs.Prelude.{ℕ};

    ghost passes: { ℕ };
}

impl Peopled for Brand {
    ghost passes = { 0 };
}

/// The load of the count.
pub struct Look<E> {
    passes: PhantomData<E>,
}

impl<E: Peopled> Play<Option<Housed>, View> for Look<E> {
    ghost then = { looked E.passes };
}

/// The side of a stream whose gate is tried, or that is held.
pub trait Tried {
    ghost use Rattle.std.specs.Prelude.{ℕ};
    ghost use Rattle.amo_object.specs.declared.step.End.{End};

    ghost side: { End };

    ghost stream: { ℕ };
}

impl Tried for Brand {
    ghost use Rattle.amo_object.specs.declared.step.End.TheVariants.{Sender};

    ghost side = { Sender };

    ghost stream = { 0 };
}

/// The load of the count by a seat that holds a side.
pub struct See<E> {
    side: PhantomData<E>,
}

impl<E: Tried> Play<Option<Housed>, View> for See<E> {
    ghost then = { saw E.side E.stream };
}

/// The compare-exchange of a gate.
pub struct Try<E> {
    side: PhantomData<E>,
}

impl<E: Tried> Play<Option<Housed>, View> for Try<E> {
    ghost then = { tried E.side E.stream };
}

/// The store of 0 into a gate.
pub struct Free;

impl Play<Option<Housed>, View> for Free {
    ghost then = { freed };
}

/// The event that a step of the count adds.
pub trait Counted {
    ghost use Rattle.amo_world.specs.declared.event.Event.{Event};

    ghost event: { Event };
}

impl Counted for Brand {
    ghost use Rattle.amo_book.specs.Plays.{some_event};

    // The proof of each call picks its event. This one only stands in its place here.
    ghost event = { some_event };
}

/// The fetch_add on the count.
pub struct Count<E> {
    event: PhantomData<E>,
}

impl<E: Counted> Play<Option<Housed>, View> for Count<E> {
    ghost then = { counted E.event };
}

/// The first share goes to a seat of its own.
pub struct Deal;

impl Split<View> for Deal {
    ghost left = { other_shares };

    ghost right = { first_share };
}

/// A seat that has seen what this one has, and makes no events.
pub struct Witness;

impl Split<View> for Witness {
    ghost left = { same_view };

    ghost right = { witness };
}

/// A seat takes in the shares of another, and what it had seen.
pub struct Gather;

impl Join<View> for Gather {
    ghost both = { joined };

    ghost spent = { bare };
}
