//! The steps on the table. These types are for the proofs alone.
ghost use Rattle.std.specs.Prelude.{◌≡◌};
ghost use Rattle.jfs_turns.specs.Views.{blank, aside, without, rejoined, dealt_one, fresh_pass, took_back};
ghost use Rattle.jfs_turns.specs.Told.{took_volume, appended, gave_volume, saw_durable, took_log, raised, gave_log, marked_taken, marked_points, marked_stable, took_both, opened};

use crate::facts::{Based, EntryFact, PointsFact};
use crate::stands::{HasClient, Stands};
use crate::view::{Held, View};
use atomic_table::{Join, Play, Split};
use std::marker::PhantomData;

pub(crate) struct TakeVolume;

impl<E: HasClient, V: Stands<E>, L> Play<Held<V, L>, View<E>> for TakeVolume {
    ghost then = { λ s. took_volume E.client V.stands };
}

pub(crate) struct Append<W> {
    marker: PhantomData<W>,
}

impl<V, L, E, W: EntryFact<E>> Play<Held<V, L>, View<E>> for Append<W> {
    ghost then = { λ s m r n. appended W.fits m n };
}

pub(crate) struct GiveVolume;

impl<V, L, E> Play<Held<V, L>, View<E>> for GiveVolume {
    ghost then = { λ s m r n. gave_volume m n };
}

pub(crate) struct SeeDurable;

impl<V, L, E> Play<Held<V, L>, View<E>> for SeeDurable {
    ghost then = { λ s m r n. saw_durable m r n };
}

pub(crate) struct TakeLog;

impl<E, V, L: Stands<E>> Play<Held<V, L>, View<E>> for TakeLog {
    ghost then = { λ s. took_log L.stands };
}

// The operand of the step is the count.
pub(crate) struct Raise;

impl<V, L, E> Play<Held<V, L>, View<E>> for Raise {
    ghost then = { λ s m r n. raised s.first m n };
}

pub(crate) struct GiveLog;

impl<V, L, E> Play<Held<V, L>, View<E>> for GiveLog {
    ghost then = { λ s m r n. gave_log m n };
}

pub(crate) struct MarkTaken;

impl<V, L, E> Play<Held<V, L>, View<E>> for MarkTaken {
    ghost then = { λ s m r n. marked_taken m n };
}

pub(crate) struct MarkPoints<W> {
    marker: PhantomData<W>,
}

impl<V, L, E, W: PointsFact> Play<Held<V, L>, View<E>> for MarkPoints<W> {
    ghost then = { λ s m r n. marked_points W.fits s.first m n };
}

pub(crate) struct MarkStable;

impl<V, L, E> Play<Held<V, L>, View<E>> for MarkStable {
    ghost then = { λ s m r n. marked_stable s.first m n };
}

pub(crate) struct Aside;

impl<E> Split<View<E>> for Aside {
    ghost left = { without };

    ghost right = { aside };
}

pub(crate) struct Spent;

impl<E> Split<View<E>> for Spent {
    ghost left = { λ v. v };

    ghost right = { λ v. blank };
}

pub(crate) struct Rejoin;

impl<E> Join<View<E>> for Rejoin {
    ghost both = { rejoined };

    ghost spent = { blank };
}

pub(crate) struct TakeBoth;

impl<V, L, E> Play<Held<V, L>, View<E>> for TakeBoth {
    ghost then = { λ s m r n. took_both n };
}

// The operand of the step is the number of passes.
pub(crate) struct Open<B> {
    marker: PhantomData<B>,
}

impl<V, L, E, B: Based> Play<Held<V, L>, View<E>> for Open<B> {
    ghost then = { λ s m r n. opened B.base s.first n };
}

pub(crate) struct Deal;

impl<E> Split<View<E>> for Deal {
    ghost left = { dealt_one };

    ghost right = { fresh_pass };
}

pub(crate) struct TakeBack;

impl<E> Join<View<E>> for TakeBack {
    ghost both = { took_back };

    ghost spent = { blank };
}

pub(crate) struct Become;

impl<V, L, E> Play<Held<V, L>, View<E>> for Become {
    ghost then = { λ s m r n. n ≡ (fresh_pass m.0, m.1) };
}
