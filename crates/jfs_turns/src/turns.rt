//! The turns, the passes that take them, and the calls of the volume turn.
ghost use Rattle.std.specs.Prelude.{◌≡◌, ◌+◌, ◌-◌, ◌^◌, ◌<◌, ◌≤◌, ℕ, [], length, IfSome, IfNone, true};
ghost use Rattle.jfs_turns.specs.Views.{IsIdle, IsFree, MayAppend, IsLoneVolume, carried};
ghost use Rattle.jfs_turns.specs.Standing.{VolumeStands, VolumeStandsWith};
ghost use Rattle.jfs_turns.specs.Told.{Learned, appended, gave_volume, saw_durable};
ghost use Rattle.atomic_table.specs.Table.{rest};
ghost use Rattle.jfs_turns.specs.declared.view.Held.TheVariants.{Volume, Log, Nothing};

use crate::facts::EntryFact;
use crate::plays::{Append, GiveVolume, SeeDurable, TakeVolume};
use crate::stands::{HasClient, Stands};
use crate::view::{Held, Law, View};
use atomic_table::{Seat, Table};
use std::alloc::Global;
use std::marker::Brand;
use std::sync::Wait;
use std::thread;

/// The volume turn and the log turn, and the two values that they guard. Whoever wants both takes the log turn first.
pub struct Turns<V: Stands<E>, L: Stands<E>, E: HasClient> {
    pub(crate) table: Table<Held<V, L>, View<E>, (), Law<V, L, E>, Global>,
    ghost sized: { (table.shared.table_id.words ≡ 6) × (table.shared.table_id.slots ≡ 2) },
}

/// A pass that has no turn. It is one client's, and knows a list of entries that every later list begins with.
pub struct Pass<V, L, E> {
    pub(crate) client: u32,
    pub(crate) calls_left: u32,
    pub(crate) seat: Seat<Held<V, L>, View<E>>,
    pub ghost free: { IsFree seat.me.0 × (seat.me.1 ≡ []) × (seat.me.0.number ≡ client) },
}

/// The volume turn: the volume and the right to append. It has a pass, or is lent out of `BothTurns`.
pub struct VolumeTurn<V, L, E> {
    /// The volume.
    pub value: V,
    pub(crate) client: u32,
    pub(crate) calls_left: u32,
    pub(crate) seat: Seat<Held<V, L>, View<E>>,
    pub ghost may: { MayAppend seat.me.0 × (seat.me.0.number ≡ client) },
}

impl<V, L, E> Pass<V, L, E> {
    /// The number of the pass, from 1, which is its client's.
    pub fn client(&self) -> u32
        ensures { result ≡ self.now.client }
    {
        self.client
    }

    /// How many entries it may still append: 65,536 at first.
    pub fn calls_left(&self) -> u32
        ensures { result ≡ self.now.calls_left }
    {
        self.calls_left
    }
}

impl<V: Stands<E>, L: Stands<E>, E: HasClient> Turns<V, L, E> {
    pub(crate) fn try_volume(&self, seat: &mut Seat<Held<V, L>, View<E>>, number: u64) -> Option<V>
        requires { (seat.old.table_id ≡ self.now.table.shared.table_id) × IsIdle seat.old.me × (number ≡ seat.old.me.0.number) }
        ensures table { (seat.new.table_id ≡ seat.old.table_id) × (seat.new.id ≡ seat.old.id) }
        ensures none { IfNone result (seat.new.me ≡ seat.old.me) }
        ensures some { IfSome result (λ x. (seat.new.me.1 ≡ carried 0 Nothing seat.old.me.1) × VolumeStands V.stands x seat.new.me.0 × Learned E.client seat.old.me seat.new.me) }
    {
        let shared = &self.table.shared;
        if shared.compare_exchange::<TakeVolume>(seat, 0, 0, number) != 0 {
            return None;
        }
        match shared.exchange(seat, 0, Held::Nothing) {
            Held::Volume(x) => Some(x),
            _ => unreachable!(),
        }
    }

    /// Waits for the volume turn. The volume stands for what the turn's seat then has: the whole list, of which what the pass had
    /// seen is a prefix that holds every entry of its client.
    pub fn take_volume<R: Wait>(&self, rt: &R, pass: Pass<V, L, E>) -> VolumeTurn<V, L, E>
        requires { pass.seat.table_id ≡ self.now.table.shared.table_id }
        ensures turn { (result.seat.table_id ≡ pass.seat.table_id) × (result.client ≡ pass.client) × (result.calls_left ≡ pass.calls_left) × IsLoneVolume result.seat.me }
        ensures stands { VolumeStands V.stands result.value result.seat.me.0 }
        ensures learned { Learned E.client pass.seat.me result.seat.me }
    {
        let Pass {
            client,
            calls_left,
            mut seat,
        } = pass;
        for _ in rt.forever() {
            if let Some(value) = self.try_volume(&mut seat, client as u64) {
                return VolumeTurn {
                    value,
                    client,
                    calls_left,
                    seat,
                };
            }
            thread::yield_now();
        }
        unreachable!()
    }

    /// Counts an entry that the volume has appended, where the caller says of it what it likes: `W.fits`. Otherwise as `append`.
    pub fn append_as<W: EntryFact<E>>(&self, turn: &mut VolumeTurn<V, L, E>)
        requires table { turn.old.seat.table_id ≡ self.now.table.shared.table_id }
        requires room { length turn.old.seat.me.0.list + 1 < 2 ^ 64 }
        requires calls { 0 < turn.old.calls_left }
        requires said { (e : _) × W.fits e × (E.client e ≡ turn.old.client) }
        ensures same { (turn.new.seat.table_id ≡ turn.old.seat.table_id) × (turn.new.value ≡ turn.old.value) × (turn.new.client ≡ turn.old.client) × (turn.new.calls_left ≡ turn.old.calls_left - 1) }
        ensures told { appended W.fits turn.old.seat.me turn.new.seat.me }
    {
        self.table
            .shared
            .fetch_add::<Append<W>>(&mut turn.seat, 2, 1);
        turn.calls_left -= 1;
    }

    /// Counts an entry that the volume has appended, which is of the pass's client, and takes one of the pass's calls. The volume
    /// stands for the seat's list and this entry. The list's length is below 2^64 afterwards too.
    pub fn append(&self, turn: &mut VolumeTurn<V, L, E>)
        requires table { turn.old.seat.table_id ≡ self.now.table.shared.table_id }
        requires room { length turn.old.seat.me.0.list + 1 < 2 ^ 64 }
        requires calls { 0 < turn.old.calls_left }
        requires entry { (e : _) × VolumeStandsWith V.stands turn.old.value turn.old.seat.me.0 e × (E.client e ≡ turn.old.client) }
        ensures same { (turn.new.seat.table_id ≡ turn.old.seat.table_id) × (turn.new.value ≡ turn.old.value) × (turn.new.client ≡ turn.old.client) × (turn.new.calls_left ≡ turn.old.calls_left - 1) }
        ensures told { appended (λ e. VolumeStandsWith V.stands turn.old.value turn.old.seat.me.0 e × (E.client e ≡ turn.old.client)) turn.old.seat.me turn.new.seat.me }
    {
        self.append_as::<Brand>(turn);
    }

    pub(crate) fn put_volume(&self, seat: &mut Seat<Held<V, L>, View<E>>, value: V)
        requires seat { (seat.old.table_id ≡ self.now.table.shared.table_id) × MayAppend seat.old.me.0 × (seat.old.me.0.main ≡ true) × (seat.old.me.0.volume ≡ true) }
        requires carried { seat.old.me.1 ≡ carried 0 Nothing (rest seat.old.me.1) }
        requires stands { VolumeStands V.stands value seat.old.me.0 }
        ensures table { (seat.new.table_id ≡ seat.old.table_id) × (seat.new.id ≡ seat.old.id) }
        ensures told { gave_volume seat.old.me seat.new.me }
    {
        let shared = &self.table.shared;
        match shared.exchange(seat, 0, Held::Volume(value)) {
            Held::Nothing => {}
            _ => unreachable!(),
        }
        shared.store::<GiveVolume>(seat, 0, 0);
    }

    /// Gives the volume turn. The volume stands for what its seat has: the list with all appended entries, the taken entries and the
    /// syncpoints. It has acknowledged no more than the seat knows to be durable. The pass keeps the whole list.
    pub fn give_volume(&self, turn: VolumeTurn<V, L, E>) -> Pass<V, L, E>
        requires table { turn.seat.table_id ≡ self.now.table.shared.table_id }
        requires lone { IsLoneVolume turn.seat.me }
        requires stands { VolumeStands V.stands turn.value turn.seat.me.0 }
        ensures pass { (result.seat.table_id ≡ turn.seat.table_id) × (result.client ≡ turn.client) × (result.calls_left ≡ turn.calls_left) }
        ensures told { gave_volume turn.seat.me result.seat.me }
    {
        let VolumeTurn {
            value,
            client,
            calls_left,
            mut seat,
        } = turn;
        self.put_volume(&mut seat, value);
        Pass {
            client,
            calls_left,
            seat,
        }
    }

    /// The number of durable entries, which is at least what the pass knew. It never falls, so this stays a bound.
    pub fn durable(&self, pass: &mut Pass<V, L, E>) -> u64
        requires { pass.old.seat.table_id ≡ self.now.table.shared.table_id }
        ensures same { (pass.new.seat.table_id ≡ pass.old.seat.table_id) × (pass.new.client ≡ pass.old.client) × (pass.new.calls_left ≡ pass.old.calls_left) }
        ensures told { saw_durable pass.old.seat.me result pass.new.seat.me }
    {
        self.table.shared.load::<SeeDurable>(&mut pass.seat, 3)
    }

    /// The number of durable entries, for the volume to acknowledge. It is at most the number of taken ones. The volume may then be
    /// given with this number acknowledged, also where both turns are held.
    pub fn settled(&self, turn: &mut VolumeTurn<V, L, E>) -> u64
        requires { turn.old.seat.table_id ≡ self.now.table.shared.table_id }
        ensures same { (turn.new.seat.table_id ≡ turn.old.seat.table_id) × (turn.new.client ≡ turn.old.client) × (turn.new.calls_left ≡ turn.old.calls_left) × (turn.new.value ≡ turn.old.value) }
        ensures told { saw_durable turn.old.seat.me result turn.new.seat.me }
        ensures taken { result ≤ turn.old.seat.me.0.taken }
    {
        self.table.shared.load::<SeeDurable>(&mut turn.seat, 3)
    }
}
