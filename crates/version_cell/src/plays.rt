//! The rule of the table that a cell lies in, and what each step on it shows.
ghost use Rattle.version_cell.specs.inside.Steps.{first_part, glued, loaded, looked, put, recalled, rest_of, spent, swapped};

use crate::doing::Doing;
use crate::rule::{CellChange, CellOutcome, CellRule};
use atomic_table::{Join, Play, Split, TableRule};
use std::marker::PhantomData;

/// The version is the code of the value. The key has the words of the table at the start.
pub struct Versions<P> {
    of: PhantomData<P>,
}

impl<V, X, P: CellRule<V, X>> TableRule<(), Doing<V, X>, Vec<u64>> for Versions<P> {
    ghost use Rattle.std.specs.Prelude.{drop, length};
    ghost use Rattle.version_cell.specs.inside.Versions.{Versioned, beginning};
    ghost use Rattle.version_cell.specs.declared.layout.TheConstants.{WORDS};

    ghost holds = { λ start. Versioned (length start.items) P.holds P.start P.code P.age P.needs P.lasts };

    ghost first = { λ start. beginning P.start P.first (drop WORDS start.items) };
}

/// A load of the version, by which the seat has seen the value.
pub(crate) struct Look<P, M> {
    of: PhantomData<(P, M)>,
}

impl<V, X, P: CellRule<V, X>, M: CellOutcome<V, X>> Play<(), Doing<V, X>> for Look<P, M> {
    ghost then = { looked P.code P.age M.then };
}

/// A load of a word beside the cell that the seat counts on.
pub(crate) struct Load<P> {
    of: PhantomData<P>,
}

impl<V, X, P: CellRule<V, X>> Play<(), Doing<V, X>> for Load<P> {
    ghost then = { loaded P.needs P.lasts };
}

/// A store of one of the seat's own words.
pub(crate) struct Put;

impl<V, X> Play<(), Doing<V, X>> for Put {
    ghost then = { put };
}

/// The version goes from the one that the seat has seen to that of the next value; where it is another, the seat has seen the value.
pub(crate) struct Swap<P, E, M> {
    of: PhantomData<(P, E, M)>,
}

impl<V, X, P: CellRule<V, X>, E: CellChange<V, X>, M: CellOutcome<V, X>> Play<(), Doing<V, X>>
    for Swap<P, E, M> {
    ghost then = { swapped P.code P.age E.next E.then M.then };
}

/// A load of nothing that counts: the caller's view learns something of the value that the seat saw last.
pub(crate) struct Recall<M> {
    of: PhantomData<M>,
}

impl<V, X, M: CellOutcome<V, X>> Play<(), Doing<V, X>> for Recall<M> {
    ghost then = { recalled M.then };
}

/// Both seats have seen the same value, and the new one gets the first `W` words of the other.
pub(crate) struct Cut<S, const W: usize> {
    of: PhantomData<S>,
}

impl<V, X, S: Split<V>, const W: usize> Split<Doing<V, X>> for Cut<S, W> {
    ghost left = { λ d. rest_of W d (S.left d.client) };

    ghost right = { λ d. first_part W d (S.right d.client) };
}

/// The seat has the later of the values that the two had seen, and its own words.
pub(crate) struct Glue<P, S> {
    of: PhantomData<(P, S)>,
}

impl<V, X, P: CellRule<V, X>, S: Join<V>> Join<Doing<V, X>> for Glue<P, S> {
    ghost both = { λ d e. glued P.code d e (S.both d.client e.client) };

    ghost spent = { spent P.start S.spent };
}
