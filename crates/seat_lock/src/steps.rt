// The rule of the table, and what each kind of step makes of a view. A step that takes the value out of the slot or
// puts it in changes no word and no view, and so needs no play.
ghost use Rattle.seat_lock.specs.TurnRule.{IsKept};
ghost use Rattle.seat_lock.specs.TurnSteps.{opening, tried, told, given, rung, giver, newcomer};

use crate::known::{Known, Slot};
use crate::rule::Rule;
use atomic_table::{Play, Split, TableRule};
use std::marker::PhantomData;

// The rule of the table under a lock.
pub(crate) struct TurnLaw<L> {
    rule: PhantomData<L>,
}

impl<L: Rule> TableRule<Slot<L::Value, L::Entry>, Known<L::View, L::Value, L::Entry>, L::View>
    for TurnLaw<L> {
    ghost holds = { λ _. IsKept L.fits };

    ghost first = { opening };
}

// Tries the turn.
pub(crate) struct Try<L> {
    rule: PhantomData<L>,
}

impl<L: Rule> Play<Slot<L::Value, L::Entry>, Known<L::View, L::Value, L::Entry>> for Try<L> {
    ghost then = { tried L.fits };
}

// Records the change whose note is in the slot.
pub(crate) struct Tell<L> {
    rule: PhantomData<L>,
}

impl<L: Rule> Play<Slot<L::Value, L::Entry>, Known<L::View, L::Value, L::Entry>> for Tell<L> {
    ghost then = { told L.after };
}

// Gives the turn.
pub(crate) struct Give;

impl<V, X, E> Play<Slot<X, E>, Known<V, X, E>> for Give {
    ghost then = { given };
}

// Raises the bell.
pub(crate) struct Ring;

impl<V, X, E> Play<Slot<X, E>, Known<V, X, E>> for Ring {
    ghost then = { rung };
}

// Splits the first seat.
pub(crate) struct Part<L> {
    rule: PhantomData<L>,
}

impl<L: Rule> Split<Known<L::View, L::Value, L::Entry>> for Part<L> {
    ghost left = { giver L.left };

    ghost right = { newcomer L.right };
}
