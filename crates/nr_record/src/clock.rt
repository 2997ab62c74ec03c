//! The clock of a run, and how its pens are made.
ghost use Rattle.std.specs.Prelude.{◌≡◌, ◌*◌, ◌%◌, ◌<◌, ◌≤◌, [], IfOk, length, sum};
ghost use Rattle.vs_types.specs.declared.limits.TheConstants.{CALLS, LOG_PLACES};
ghost use Rattle.nr_record.specs.Pen.{clock_of, new_pen, new_pens};
ghost use Rattle.nr_record.specs.Stamps.{AreBelow};
ghost use Rattle.nr_record.specs.Rule.{HasDrawn, joint_seat, left_seat};

use crate::pen::Pen;
use crate::rule::{Draws, Gives, Quota, Stamps, Takes};
use crate::view::{Plan, View};
use atomic_table::{Seat, Table};
use std::alloc::Global;
use std::marker::{Brand, Model};
use vs_types::{Config, Memory};

/// What the stamps of a run are drawn from: one word. Contracts see which clock it is, how the service is laid out, and how many calls
/// the pens may make in all.
#[derive(Drop)]
pub struct Clock {
    table: Table<(), View, Plan, Stamps, Global>,
}

impl Model for Clock {
    ghost use Rattle.std.specs.Prelude.{◌≡◌};
    ghost use Rattle.nr_record.specs.Pen.{ClockId, clock_of};

    ghost Value = { ClockId };

    ghost view = { λ c. clock_of c.table.shared.table_id c.table.shared.key };

    ghost invariant = { λ c. (c.table.shared.table_id.words ≡ 1)
        × (c.table.shared.table_id.slots ≡ 0) };
}

impl Clock {
    /// The next stamp.
    pub(crate) fn draw(&self, seat: &mut Seat<(), View>) -> u32
        requires clock { seat.old.table_id ≡ self.now.word }
        requires quota { length seat.old.me.0.stamps < 2 * seat.old.me.0.quota }
        ensures clock { seat.new.table_id ≡ seat.old.table_id }
        ensures drawn { HasDrawn seat.old.me.0 result seat.new.me.0 }
        ensures held { seat.new.me.1 ≡ seat.old.me.1 }
    {
        self.table.shared.fetch_add::<Draws>(seat, 0, 1) as u32
    }

    /// A pen of a thread for so many calls, which the seat then has no more.
    fn pen<Q: Quota>(
        &self,
        alloc: Global,
        first: &mut Seat<(), View>,
        replica: u8,
        thread: u16,
        quota: u32,
    ) -> Result<Pen, Memory>
        requires clock { first.old.table_id ≡ self.now.word }
        requires fresh { first.old.me.0.stamps ≡ [] }
        requires quota { (Q.quota ≡ quota) × (quota ≤ first.old.me.0.quota) × (quota ≤ LOG_PLACES) }
        requires place { (replica ≡ thread % first.old.me.0.plan.config.replicas)
            × (replica < first.old.me.0.plan.config.replicas)
            × (thread < first.old.me.0.plan.config.threads) }
        ensures clock { first.new.table_id ≡ first.old.table_id }
        ensures first { first.new.me.0 ≡ left_seat quota first.old.me.0 }
        ensures pen { IfOk result
            (λ pen. pen ≡ new_pen (clock_of self.now.word first.old.me.0.plan) thread quota) }
    {
        let seat = self.table.shared.split_seat::<Gives<Q>>(first);
        Pen::new(alloc, seat, replica, thread, quota)
    }

    /// Joins a seat to another, which takes over its quota and its stamps.
    pub(crate) fn join(&self, seat: &mut Seat<(), View>, other: Seat<(), View>)
        requires clock { (seat.old.table_id ≡ self.now.word) × (other.table_id ≡ self.now.word) }
        requires held { other.me.1 ≡ [] }
        ensures clock { seat.new.table_id ≡ seat.old.table_id }
        ensures view { seat.new.me.0 ≡ joint_seat seat.old.me.0 other.me.0 }
    {
        self.table.shared.join_seat::<Takes>(seat, other);
    }

    /// How many stamps were drawn, where the seat has the quotas of all calls: it has them all.
    pub(crate) fn close(self, seat: Seat<(), View>) -> u64
        requires clock { seat.table_id ≡ self.word }
        requires whole { seat.me.0.quota ≡ self.calls }
        ensures stamps { AreBelow result seat.me.0.stamps }
        ensures count { (length seat.me.0.stamps ≡ result) × (result ≤ CALLS) }
    {
        let closed = self.table.close_with(seat);
        let count = closed.word(0);
        closed.free();
        count
    }
}

/// A clock, and a pen for each thread: pen t records thread t at replica `t % replicas`, and has room for its quota of calls. The
/// quotas are at most 65,536 calls in all.
///
/// It allocates all memory that the pens ever need: 64 bytes for each call.
///
/// # Errors
///
/// Out of memory.
pub fn pens(alloc: Global, config: Config, quotas: &[u32]) -> Result<(Clock, Vec<Pen>), Memory>
    requires one_each { length quotas.now ≡ config.threads }
    requires few { sum quotas.now ≤ LOG_PLACES }
    ensures clock { IfOk result
        (λ made. (made.0.layout ≡ config) × (made.0.calls ≡ sum quotas.now)) }
    ensures pens { IfOk result (λ made. made.1.items ≡ new_pens made.0 0 quotas.now) }
{
    let calls = quotas.iter().sum();
    let (table, mut first) = Table::of_words(alloc, &[0], &Plan { config, calls })?;
    let clock = Clock { table };
    let mut pens = Vec::with_capacity(alloc, quotas.len())?;
    let replicas = u16::from(config.replicas());
    for (thread, quota) in quotas.iter().enumerate() {
        let thread = thread as u16;
        let replica = (thread % replicas) as u8;
        pens.push(clock.pen::<Brand>(alloc, &mut first, replica, thread, *quota)?)?;
    }
    Ok((clock, pens))
}
