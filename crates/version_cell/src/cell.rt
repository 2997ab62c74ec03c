//! The cell.
ghost use Rattle.std.specs.Prelude.{◌≡◌, ◌<◌, ◌≤◌, ◌+◌, ◌-◌, ◌^◌, ◌⊎◌, ℕ, List, [], ◌∷◌, true, false, drop, take, length, replicate, IfOk, MatchBool};
ghost use Rattle.std.specs.Prelude.{slice_set};
ghost use Rattle.crossbeam_utils.specs.Register.{Forks, Merges, Turns, TurnsAt};
ghost use Rattle.version_cell.specs.Meetings.{HaveComeFurther, Recalls};
ghost use Rattle.version_cell.specs.Passes.{beside};
ghost use Rattle.version_cell.specs.Words.{IsOwn, LiesIn, Leaves};
ghost use Rattle.version_cell.specs.inside.Heads.{IsHead};

use crate::doing::Doing;
use crate::layout::{STILL, VERSION, WORDS};
use crate::pass::Pass;
use crate::plays::{Cut, Glue, Load, Look, Put, Recall, Swap, Versions};
use crate::rule::{CellChange, CellOutcome, CellRule};
use atomic_table::{Join, Split, Table};
use std::alloc::{AllocError, Global};
use std::marker::{Model, PhantomData};

/// A cell with words beside it. Contracts see which cell it is.
#[derive(Drop)]
pub struct VersionCell<V, X, P: CellRule<V, X>, const H: usize> {
    table: Table<(), Doing<V, X>, Vec<u64>, Versions<P>, Global>,
}

impl<V, X, P: CellRule<V, X>, const H: usize> Model for VersionCell<V, X, P, H> {
    ghost use Rattle.std.specs.Prelude.{◌≡◌, ◌≤◌, length};
    ghost use Rattle.atomic_table.specs.Seated.{TableId};
    ghost use Rattle.version_cell.specs.declared.layout.TheConstants.{WORDS};

    ghost Value = { TableId };

    ghost view = { λ c. c.table.shared.table_id };

    ghost invariant = { λ c. (WORDS ≤ c.table.shared.table_id.words)
        × (length c.table.shared.key.items ≡ c.table.shared.table_id.words) };
}

impl<V, X, P: CellRule<V, X>, const H: usize> VersionCell<V, X, P, H> {
    /// A cell with the first value, of this code, and so many words of 0 beside it; and its first pass, to which they belong.
    ///
    /// # Errors
    ///
    /// `AllocError` where the allocator gives no memory.
    pub fn new(
        alloc: Global,
        code: u64,
        words: usize,
    ) -> Result<(VersionCell<V, X, P, H>, Pass<V, X, P, H>), AllocError>
        requires rule { P.holds P.start (P.first ∷ []) }
        requires code { code ≡ P.code P.start }
        requires few { words < 2 ^ 32 }
        requires needs { (place word : ℕ) → P.needs P.start place word → ⊥ }
        ensures { IfOk result (λ made. (made.1.cell ≡ made.0) × (beside made.0 ≡ words)
            × (made.1.view ≡ P.first) × (made.1.value ≡ P.start)
            × (made.1.from ≡ 0) × (made.1.own ≡ replicate words 0)) }
    {
        let mut start = Vec::new(alloc);
        start.resize(WORDS + words, 0)?;
        start[VERSION] = code;
        let (table, seat) = Table::of_words(alloc, start.as_slice(), &start)?;
        let mut head = [0; H];
        put_head::<V, X, P, H>(code, &mut head);
        let pass = Pass {
            seat,
            version: code,
            head,
            of: PhantomData,
        };
        Ok((VersionCell { table }, pass))
    }

    /// Cuts the view of a pass in two. The new pass has the second, has seen the same value, and gets the first `W` of the words that
    /// belong to the other.
    pub fn split_pass<S: Split<V>, const W: usize>(
        &self,
        pass: &mut Pass<V, X, P, H>,
    ) -> Pass<V, X, P, H>
        requires cell { pass.old.cell ≡ self.now }
        requires words { W ≤ length pass.old.own }
        requires rule { Forks P.holds pass.old.number pass.old.view
            (S.left pass.old.view) (S.right pass.old.view) }
        ensures same { (pass.new.cell ≡ pass.old.cell) × (pass.new.number ≡ pass.old.number)
            × (pass.new.value ≡ pass.old.value) }
        ensures kept { (pass.new.view ≡ S.left pass.old.view)
            × (pass.new.from ≡ pass.old.from + W) × (pass.new.own ≡ drop W pass.old.own) }
        ensures given { (result.cell ≡ self.now) × (result.view ≡ S.right pass.old.view)
            × (result.value ≡ pass.old.value)
            × (result.from ≡ pass.old.from) × (result.own ≡ take W pass.old.own) }
    {
        let seat = self.table.shared.split_seat::<Cut<S, W>>(&mut pass.seat);
        Pass {
            seat,
            version: pass.version,
            head: pass.head,
            of: PhantomData,
        }
    }

    /// Has the value of the pass be that of the cell. This is one load.
    pub fn look_as<M: CellOutcome<V, X>>(&self, pass: &mut Pass<V, X, P, H>)
        requires cell { pass.old.cell ≡ self.now }
        requires rule { Turns P.holds pass.old.number pass.old.view (λ x. x) M.then }
        ensures same { (pass.new.cell ≡ pass.old.cell) × (pass.new.number ≡ pass.old.number)
            × (pass.new.from ≡ pass.old.from) × (pass.new.own ≡ pass.old.own) }
        ensures rule { M.then pass.old.view pass.new.value pass.new.value pass.new.view }
        ensures fresh { pass.new.fresh ≡ true }
    {
        let found = self
            .table
            .shared
            .load::<Look<P, M>>(&mut pass.seat, VERSION);
        if found != pass.version {
            pass.version = found;
            put_head::<V, X, P, H>(found, &mut pass.head);
        }
    }

    /// The word at a place beside the cell, which the value that the pass saw last needs, and which the pass can count on: it lies there
    /// still, whatever others have done.
    pub fn load(&self, pass: &mut Pass<V, X, P, H>, place: usize) -> u64
        requires cell { pass.old.cell ≡ self.now }
        requires within { place < beside self.now }
        requires fresh { pass.old.fresh ≡ true }
        requires lasts { (word : ℕ) × P.lasts pass.old.view pass.old.value place word
            × P.needs pass.old.value place word }
        ensures same { pass.new ≡ pass.old }
        ensures loaded { (word : ℕ) → P.lasts pass.old.view pass.old.value place word
            → P.needs pass.old.value place word → result ≡ word }
    {
        self.table
            .shared
            .load::<Load<P>>(&mut pass.seat, place + WORDS)
    }

    /// Stores a word at a place that belongs to the pass, and that the value which it saw last doesn't need.
    pub fn store(&self, pass: &mut Pass<V, X, P, H>, place: usize, word: u64)
        requires cell { pass.old.cell ≡ self.now }
        requires within { place < beside self.now }
        requires own { IsOwn pass.old.from pass.old.own place }
        requires fresh { pass.old.fresh ≡ true }
        requires unneeded { (other : ℕ) → P.needs pass.old.value place other → ⊥ }
        ensures same { (pass.new.cell ≡ pass.old.cell) × (pass.new.number ≡ pass.old.number)
            × (pass.new.view ≡ pass.old.view) × (pass.new.value ≡ pass.old.value)
            × (pass.new.fresh ≡ true) × (pass.new.from ≡ pass.old.from) }
        ensures stored { pass.new.own ≡ slice_set pass.old.own (place - pass.old.from) word }
    {
        self.table
            .shared
            .store::<Put>(&mut pass.seat, place + WORDS, word);
    }

    /// Makes the value the next one, of this code, where the cell has still the value of the pass. Each word that the next value needs
    /// and that one didn't lies among the words of the pass already, and it leaves each word that another pass counts on. Else it looks,
    /// and the value that it finds has come further. This is one step, and waits for nobody.
    pub fn exchange_as<E: CellChange<V, X>, M: CellOutcome<V, X>>(
        &self,
        pass: &mut Pass<V, X, P, H>,
        code: u64,
    ) -> bool
        requires cell { pass.old.cell ≡ self.now }
        requires code { code ≡ P.code (E.next pass.old.value) }
        requires rises { (P.code pass.old.value < code)
            × (P.age pass.old.value < P.age (E.next pass.old.value)) }
        requires rule { TurnsAt P.holds pass.old.number pass.old.view
            pass.old.value (E.next pass.old.value) E.then }
        requires needs { (place word : ℕ) → P.needs (E.next pass.old.value) place word
            → P.needs pass.old.value place word ⊎ LiesIn pass.old.from pass.old.own place word }
        requires leaves { Leaves P.holds P.needs P.lasts pass.old.number pass.old.view
            pass.old.value (E.next pass.old.value) }
        requires look { Turns P.holds pass.old.number pass.old.view (λ x. x) M.then }
        ensures same { (pass.new.cell ≡ pass.old.cell) × (pass.new.number ≡ pass.old.number)
            × (pass.new.from ≡ pass.old.from) × (pass.new.own ≡ pass.old.own) }
        ensures rule { MatchBool result
            ((pass.new.value ≡ E.next pass.old.value)
            × E.then pass.old.view pass.old.value pass.new.value pass.new.view)
            ((P.code pass.old.value < P.code pass.new.value)
            × (P.age pass.old.value < P.age pass.new.value)
            × M.then pass.old.view pass.new.value pass.new.value pass.new.view) }
        ensures fresh { pass.new.fresh ≡ true }
    {
        let version = pass.version;
        let found = self
            .table
            .shared
            .compare_exchange::<Swap<P, E, M>>(&mut pass.seat, VERSION, version, code);
        let made = found == version;
        pass.version = if made { code } else { found };
        put_head::<V, X, P, H>(pass.version, &mut pass.head);
        made
    }

    /// Hands one pass what another has seen: it takes in a part that is cut off the other's view. If the other's value has come
    /// further, it is then its own. It looks at nothing, and waits for nobody.
    pub fn meet_as<S: Split<V> + Join<V>, M: CellOutcome<V, X>>(
        &self,
        pass: &mut Pass<V, X, P, H>,
        told: &mut Pass<V, X, P, H>,
    )
        requires cell { (pass.old.cell ≡ self.now) × (told.old.cell ≡ self.now) }
        requires cut { Forks P.holds pass.old.number pass.old.view
            (S.left pass.old.view) (S.right pass.old.view) }
        requires joined { (part : ℕ) → Merges P.holds told.old.number told.old.view
            part (S.right pass.old.view) (S.both told.old.view (S.right pass.old.view)) S.spent }
        requires recall { (value : X) → HaveComeFurther P.code told.old.value pass.old.value value
            → Recalls P.holds told.old.number
            (S.both told.old.view (S.right pass.old.view)) value M.then }
        ensures pass { (pass.new.cell ≡ pass.old.cell) × (pass.new.number ≡ pass.old.number)
            × (pass.new.value ≡ pass.old.value) × (pass.new.view ≡ S.left pass.old.view)
            × (pass.new.from ≡ pass.old.from) × (pass.new.own ≡ pass.old.own) }
        ensures same { (told.new.cell ≡ told.old.cell) × (told.new.number ≡ told.old.number)
            × (told.new.from ≡ told.old.from) × (told.new.own ≡ told.old.own) }
        ensures value { HaveComeFurther P.code told.old.value pass.old.value told.new.value }
        ensures rule { M.then (S.both told.old.view (S.right pass.old.view))
            told.new.value told.new.value told.new.view }
    {
        let table = &self.table.shared;
        let part = table.split_seat::<Cut<S, 0>>(&mut pass.seat);
        table.join_seat::<Glue<P, S>>(&mut told.seat, part);
        table.load::<Recall<M>>(&mut told.seat, STILL);
        if told.version < pass.version {
            told.version = pass.version;
            told.head = pass.head;
        }
    }
}

/// Puts what a code says at the first places.
fn put_head<V, X, P: CellRule<V, X>, const H: usize>(code: u64, head: &mut [u64; H])
    ensures { IsHead P.head code H head.new }
{
    for place in 0..H {
        head[place] = P::word(code, place);
    }
}
