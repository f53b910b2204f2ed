//! What the slots hold, what a seat knows, and the rule of the table.
use crate::stands::{HasClient, Stands};
use atomic_table::TableRule;
use std::collections::LinkedList;
use std::marker::PhantomData;

/// What a slot holds. `Nothing` lies there while the value is with its holder.
pub enum Held<V, L> {
    Volume(V),
    Log(L),
    Nothing,
}

/// What a seat of the table knows and may do. No value of it is made.
pub struct View<E> {
    // It is not spent.
    pub live: bool,
    // It is a pass's own seat.
    pub main: bool,
    // It deals the passes.
    pub keeper: bool,
    // It has the right to append.
    pub appends: bool,
    // Its pass has the volume turn, and it knows the syncpoints and the number of taken entries.
    pub volume: bool,
    // It has the log turn.
    pub log: bool,
    // The pass's number, which is its client's.
    pub number: u64,
    // Of a pass: how many passes there are. Of the keeper: how many it has dealt.
    pub dealt: u64,
    // Of the last pass: how many others are back. Of the keeper: how many passes there are.
    pub back: u64,
    pub taken: u64,
    // Lower bounds of words 3 and 5.
    pub durable: u64,
    pub stable: u64,
    // With the log turn: the log side's counts, which are words 3 and 5.
    pub log_durable: u64,
    pub log_stable: u64,
    pub base: LinkedList<LinkedList<u8>>,
    // The entries that it has seen, and the log side's.
    pub list: LinkedList<E>,
    pub log_list: LinkedList<E>,
    // The syncpoints that it has seen, and the log side's.
    pub points: LinkedList<u64>,
    pub log_points: LinkedList<u64>,
    // Of the last pass: the lists of those that are back, the lowest first.
    pub returned: LinkedList<LinkedList<E>>,
}

pub struct Law<V, L, E> {
    marker: PhantomData<(V, L, E)>,
}

impl<E: HasClient, V: Stands<E>, L: Stands<E>> TableRule<Held<V, L>, View<E>, ()> for Law<V, L, E> {
    ghost use Rattle.jfs_turns.specs.Views.{unborn};
    ghost use Rattle.jfs_turns.specs.Rule.{IsKept};

    ghost holds = { λ _. IsKept E.client V.stands L.stands };

    ghost first = { λ _. unborn };
}
