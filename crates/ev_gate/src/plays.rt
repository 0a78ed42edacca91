//! What each step at the table shows. These types are for the proofs alone.
ghost use Rattle.std.specs.Prelude.{Option, None};
ghost use Rattle.ev_gate.specs.Rule.{KnowsFirst, Draws, Looks, Ends, Raises, Asks, left_view, right_view, joined_view, spent_view};

use crate::stands::Stands;
use crate::view::View;
use atomic_table::{Join, Play, Split};
use std::marker::{Brand, PhantomData};

/// The value that a gate was made with, which a step can name by a type. A call at `Brand` picks it.
pub(crate) trait FirstValue<V> {
    ghost first: { Option V };
}

impl<V> FirstValue<V> for Brand {
    ghost first = { None };
}

pub(crate) struct Draw<K> {
    marker: PhantomData<K>,
}

impl<V: Stands, K: FirstValue<V>> Play<Option<V>, View<V::Opening, V::Commit>> for Draw<K> {
    ghost then = { λ _ m found n.
        Draws V.opening V.commits m found n × KnowsFirst V.opening V.commits K.first m.0 };
}

pub(crate) struct Look;

impl<V: Stands> Play<Option<V>, View<V::Opening, V::Commit>> for Look {
    ghost then = { λ _ m found n. Looks V.opening V.commits V.version_of m found n };
}

pub(crate) struct End;

impl<V: Stands> Play<Option<V>, View<V::Opening, V::Commit>> for End {
    ghost then = { λ _ m _ n. Ends V.opening V.commits V.version_of m n };
}

pub(crate) struct Raise;

impl<V: Stands> Play<Option<V>, View<V::Opening, V::Commit>> for Raise {
    ghost then = { λ _ m _ n. Raises V.opening V.commits m n };
}

pub(crate) struct Ask<K> {
    marker: PhantomData<K>,
}

impl<V: Stands, K: FirstValue<V>> Play<Option<V>, View<V::Opening, V::Commit>> for Ask<K> {
    ghost then = { λ s m found n.
        Asks V.opening V.commits V.version_of s.first m found n
        × KnowsFirst V.opening V.commits K.first m.0 };
}

pub(crate) struct Seating;

impl<O, C> Split<View<O, C>> for Seating {
    ghost left = { left_view };

    ghost right = { right_view };
}

pub(crate) struct Gathering;

impl<O, C> Join<View<O, C>> for Gathering {
    ghost both = { joined_view };

    ghost spent = { spent_view };
}
