// The rule of the table, and what each step tells.
use crate::chronicle::Chronicle;
use crate::view::View;
use atomic_table::{Join, Play, Split, TableRule};
use std::marker::{Brand, PhantomData};
use std::snapshot::Snapshot;

/// The rule that each step keeps.
pub struct Order;

impl<V: Chronicle> TableRule<Option<V>, View<V::Step, V::Charter>, Snapshot<V>> for Order {
    ghost use Rattle.turnstile.specs.Views.{root};
    ghost use Rattle.turnstile.specs.Rule.{IsKept};

    ghost holds = { λ _. IsKept V.author V.legal V.history V.charter };

    ghost first = { λ key. root (V.history key.value) (V.charter key.value) };
}

pub(crate) struct Enter;

impl<V: Chronicle> Play<Option<V>, View<V::Step, V::Charter>> for Enter {
    ghost use Rattle.turnstile.specs.Plays.{Enters};

    ghost then = { λ st m r n. Enters V.author V.legal V.history V.charter m r n };
}

/// A history that a call picks.
pub(crate) trait Reached<S> {
    ghost use Rattle.std.specs.Prelude.{List};

    ghost history: { List S };
}

impl<S> Reached<S> for Brand {
    ghost use Rattle.std.specs.Prelude.{[]};

    ghost history = { [] };
}

pub(crate) struct Raise<G> {
    history: PhantomData<G>,
}

impl<V: Chronicle, G: Reached<V::Step>> Play<Option<V>, View<V::Step, V::Charter>> for Raise<G> {
    ghost use Rattle.turnstile.specs.Plays.{RaisesTo};

    ghost then = { λ st m r n. RaisesTo V.author G.history m n };
}

pub(crate) struct Leave;

impl<V: Chronicle> Play<Option<V>, View<V::Step, V::Charter>> for Leave {
    ghost use Rattle.turnstile.specs.Plays.{Leaves};

    ghost then = { λ st m r n. Leaves m n };
}

pub(crate) struct Learn;

impl<V: Chronicle> Play<Option<V>, View<V::Step, V::Charter>> for Learn {
    ghost use Rattle.turnstile.specs.Plays.{Learns};

    ghost then = { λ st m r n. Learns V.author V.legal m n };
}

/// A number that a call picks.
pub(crate) trait Numbered {
    ghost use Rattle.std.specs.Prelude.{ℕ};

    ghost number: { ℕ };
}

impl Numbered for Brand {
    ghost number = { 0 };
}

pub(crate) struct Admit<N> {
    number: PhantomData<N>,
}

impl<S, C, N: Numbered> Split<View<S, C>> for Admit<N> {
    ghost use Rattle.turnstile.specs.Views.{admits, admittee};

    ghost left = { admits N.number };

    ghost right = { admittee N.number };
}

pub(crate) struct TakeIn;

impl<S, C> Join<View<S, C>> for TakeIn {
    ghost use Rattle.turnstile.specs.Views.{joined, spent};

    ghost both = { joined };

    ghost spent = { spent };
}
