//! How the turns begin and end.
ghost use Rattle.std.specs.Prelude.{◌≡◌, ◌<◌, ◌≤◌, [], length, IfOk, IfErr};
ghost use Rattle.jfs_turns.specs.Views.{unborn, keeping};
ghost use Rattle.jfs_turns.specs.Passes.{ArePasses, AreNew, AtEnd};

use crate::facts::Based;
use crate::plays::{Become, Deal, Open, TakeBack, TakeBoth};
use crate::stands::{HasClient, Stands};
use crate::turns::{Pass, Turns};
use crate::view::{Held, Law, View};
use atomic_table::{Refused, Seat, Shared, Table};
use std::alloc::{AllocError, Global};

type Keeper<V, L, E> = Seat<Held<V, L>, View<E>>;

type Laid<V, L, E> = Table<Held<V, L>, View<E>, (), Law<V, L, E>, Global>;

// A table with both slots vacant. There is no base yet: a rule's key is a run-time value, and the base is none.
fn lay<V: Stands<E>, L: Stands<E>, E: HasClient>(
    alloc: Global,
) -> Result<(Laid<V, L, E>, Keeper<V, L, E>), AllocError>
    ensures { IfOk result (λ r. (r.0.shared.table_id.words ≡ 6) × (r.0.shared.table_id.slots ≡ 2) × (r.1.table_id ≡ r.0.shared.table_id) × (r.1.me ≡ (unborn, []))) }
{
    let mut slots = Vec::with_capacity(alloc, 2)?;
    slots.push_reserved(Held::Nothing);
    slots.push_reserved(Held::Nothing);
    match Table::new(alloc, &[0, 0, 0, 0, 0, 0], slots, &()) {
        Ok(laid) => Ok(laid),
        Err(Refused { mut slots }) => {
            match slots.pop() {
                Some(Held::Nothing) => {}
                _ => unreachable!(),
            }
            match slots.pop() {
                Some(Held::Nothing) => {}
                _ => unreachable!(),
            }
            slots.destroy_empty();
            Err(AllocError)
        }
    }
}

impl<V: Stands<E>, L: Stands<E>, E: HasClient> Turns<V, L, E> {
    // The first seat takes both slots, writes the values and gives them. So the rule begins with a base.
    fn open<B: Based>(
        shared: &Shared<Held<V, L>, View<E>, (), Law<V, L, E>>,
        seat: &mut Keeper<V, L, E>,
        volume: V,
        log: L,
        passes: u32,
    )
        requires seat { (seat.old.table_id ≡ shared.now.table_id) × (shared.now.table_id.words ≡ 6) × (shared.now.table_id.slots ≡ 2) × (seat.old.me ≡ (unborn, [])) }
        requires stands { V.stands volume B.base [] 0 0 [] 0 × L.stands log B.base [] 0 0 [] 0 × (0 < passes) }
        ensures { (seat.new.table_id ≡ seat.old.table_id) × (seat.new.me ≡ (keeping B.base passes, [])) }
    {
        shared.load::<TakeBoth>(seat, 0);
        match shared.exchange(seat, 0, Held::Volume(volume)) {
            Held::Nothing => {}
            _ => unreachable!(),
        }
        seat.turn();
        match shared.exchange(seat, 1, Held::Log(log)) {
            Held::Nothing => {}
            _ => unreachable!(),
        }
        seat.turn();
        shared.fetch_min::<Open<B>>(seat, 5, passes as u64);
    }

    /// Two turns over both values, and `passes` passes, 1 to 17, the k-th for client k. Both values stand for the base `B.base`, an
    /// empty list and no syncpoints. It is refused for memory alone, and then gives the values back.
    pub fn new<B: Based>(
        alloc: Global,
        volume: V,
        log: L,
        passes: u32,
    ) -> Result<(Turns<V, L, E>, Vec<Pass<V, L, E>, Global>), (V, L)>
        requires few { (0 < passes) × (passes ≤ 17) }
        requires stands { V.stands volume B.base [] 0 0 [] 0 × L.stands log B.base [] 0 0 [] 0 }
        ensures ok { IfOk result (λ r. ArePasses r.0.table.shared.table_id passes r.1.items × AreNew B.base r.1.items × (length r.1.items ≡ passes)) }
        ensures err { IfErr result (λ r. (r.0 ≡ volume) × (r.1 ≡ log)) }
    {
        let Ok(mut dealt) = Vec::with_capacity(alloc, passes as usize) else {
            return Err((volume, log));
        };
        let Ok((table, mut keeper)) = lay(alloc) else {
            dealt.destroy_empty();
            return Err((volume, log));
        };
        Turns::<V, L, E>::open::<B>(&table.shared, &mut keeper, volume, log, passes);
        for i in 0..passes - 1 {
            let seat = table.shared.split_seat::<Deal>(&mut keeper);
            dealt.push_reserved(Pass {
                client: i + 1,
                calls_left: 65536,
                seat,
            });
        }
        table.shared.load::<Become>(&mut keeper, 0);
        dealt.push_reserved(Pass {
            client: passes,
            calls_left: 65536,
            seat: keeper,
        });
        Ok((Turns { table }, dealt))
    }

    /// Takes back all the passes that `new` gave, and gives both values as they were last given back. They stand for one base, the
    /// last pass's. The volume's list goes on each pass's, with no entry of that pass's client. The log side's list is a prefix of
    /// the volume's, and its syncpoints are the volume's.
    pub fn close(self, mut passes: Vec<Pass<V, L, E>, Global>) -> (V, L)
        requires passes { ArePasses self.table.shared.table_id (length passes.items) passes.items × (0 < length passes.items) }
        ensures { AtEnd E.client V.stands L.stands passes.items result.0 result.1 }
    {
        let Turns { table } = self;
        let Some(last) = passes.pop() else {
            unreachable!()
        };
        let Pass {
            client: _,
            calls_left: _,
            seat: mut keeper,
        } = last;
        while let Some(pass) = passes.pop() {
            let Pass {
                client: _,
                calls_left: _,
                seat,
            } = pass;
            table.shared.join_seat::<TakeBack>(&mut keeper, seat);
        }
        passes.destroy_empty();
        let mut closed = table.close_with(keeper);
        let volume = match closed.take(0) {
            Held::Volume(volume) => volume,
            _ => unreachable!(),
        };
        let log = match closed.take(1) {
            Held::Log(log) => log,
            _ => unreachable!(),
        };
        closed.free();
        (volume, log)
    }
}
