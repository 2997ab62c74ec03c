//! Ways through the tables of a dump.

ghost use Rattle.std.specs.Prelude.{◌≡◌, ◌≤◌, ◌<◌, ◌↔◌, ◌++◌, [], ℕ, IfOk, IsTrue, List, MatchOption, OnOk, length};
ghost use Rattle.vs_types.specs.declared.limits.TheConstants.{MOST_LEVELS};
ghost use Rattle.vs_types.specs.Depth.{levels};
ghost use Rattle.nr_explain.specs.inside.Ways.{GoesNowhere, GoesOnTo, HasTwoWays, IsAnotherWay, IsMet, IsReservedAt, IsSearched};
ghost use Rattle.vs_types.specs.declared.entries.entry.Meaning.TheVariants.{Reserved};
ghost use Rattle.nr_explain.specs.Evidence.{IsRootPath, StepsLeadTo};
ghost use Rattle.nr_explain.specs.Facts.{entries_read, HasReservedWord};
ghost use Rattle.vs_types.specs.Bits.{IsLowestReservedBit};
ghost use Rattle.nr_explain.specs.declared.trace.evidence.TableEntry.{TableEntry};

use crate::trace::evidence::TableEntry;
use std::alloc::Global;
use vs_types::{Depth, Entry, Meaning, Memory, index_at, reserved_bit};
use vs_walk::{Dump, Frames};

/// What is looked for in the tables of a dump.
#[derive(Drop)]
pub struct Target {
    /// The number of a frame.
    pub frame: u64,
    /// The index of a word of it that has a reserved bit set, if it has to have one.
    pub reserved: Option<u16>,
    /// The way that it may not be, if there is one.
    pub other: Option<Vec<TableEntry>>,
}

/// Whether the word of a frame at an index has a reserved bit set, as an entry of a level.
fn is_reserved(dump: &Dump, level: u8, frame: u64, index: u16) -> bool
    requires some_level { 1 ≤ level }
    requires few_levels { level ≤ MOST_LEVELS }
    ensures { IsTrue result ↔ IsReservedAt dump.now.frames level frame index }
{
    let Some(words) = dump.words(frame) else {
        return false;
    };
    if index as usize >= words.len() {
        return false;
    }
    matches!(
        Entry::new(words.word(index as usize)).read(level),
        Meaning::Reserved
    )
}

/// Whether two ways are one.
fn is_same(left: &[TableEntry], right: &[TableEntry]) -> bool
    ensures { IsTrue result ↔ (left.now ≡ right.now) }
{
    left == right
}

/// Whether a way that ends at the frame, as a table of a level, is one that is looked for.
fn is_met(dump: &Dump, target: &Target, level: u8, way: &[TableEntry]) -> bool
    requires some_level { 1 ≤ level }
    requires few_levels { level ≤ MOST_LEVELS }
    ensures { IsTrue result ↔ IsMet dump.now.frames target.now level way.now }
{
    let has_word = match target.reserved {
        Some(index) => is_reserved(dump, level, target.frame, index),
        None => true,
    };
    let is_new = match &target.other {
        Some(other) => !is_same(way, other),
        None => true,
    };
    has_word && is_new
}

/// Goes on with a way from a table, each entry in turn, until it is one that is looked for. Allocates memory for the way.
fn go_on(
    dump: &Dump,
    target: &Target,
    level: u8,
    number: u64,
    way: &mut Vec<TableEntry>,
) -> Result<bool, Memory>
    requires some_level { 1 ≤ level }
    requires few_levels { level ≤ MOST_LEVELS }
    ensures { IfOk result
        (IsSearched dump.now.frames target.now level number way.old.items way.new.items) }
{
    if number == target.frame && is_met(dump, target, level, way) {
        return Ok(true);
    }
    let Some(words) = dump.words(number) else {
        return Ok(false);
    };
    for index in 0..words.len() {
        let word = words.word(index);
        if let Meaning::Table(next, _) = Entry::new(word).read(level) {
            way.push(TableEntry {
                level,
                frame: number,
                index: index as u16,
                word,
            })?;
            if go_on(dump, target, level - 1, next, way)? {
                return Ok(true);
            }
            let _passed = way.pop();
        }
    }
    Ok(false)
}

/// The first way from the root of a dump to what is looked for, if there is one. Allocates memory for the way.
///
/// # Errors
///
/// `Memory` where a growth of memory was refused.
pub fn find_way(
    alloc: Global,
    dump: &Dump,
    depth: Depth,
    target: &Target,
) -> Result<Option<Vec<TableEntry>>, Memory>
    ensures { IfOk result (λ found. MatchOption found
        (GoesNowhere dump.now.frames target.now (levels depth) dump.now.root [])
        (λ way. GoesOnTo dump.now.frames target.now (levels depth) dump.now.root [] way.items)) }
{
    let mut way = Vec::new(alloc);
    if go_on(dump, target, depth.levels(), dump.root(), &mut way)? {
        return Ok(Some(way));
    }
    Ok(None)
}

/// The first way from the root of a dump to a frame to which some way leads. Allocates memory for the way.
///
/// # Errors
///
/// `Memory` where a growth of memory was refused.
pub fn way_to_frame(
    alloc: Global,
    dump: &Dump,
    depth: Depth,
    frame: u64,
) -> Result<Vec<TableEntry>, Memory>
    requires { (steps : List TableEntry) × StepsLeadTo depth dump.now frame steps }
    ensures { IfOk result (λ path. StepsLeadTo depth dump.now frame path.items) }
{
    let target = Target {
        frame,
        reserved: None,
        other: None,
    };
    match find_way(alloc, dump, depth, &target)? {
        Some(path) => Ok(path),
        None => unreachable!(),
    }
}

/// A way to a frame, and another one that leads there. Allocates memory for the other way.
///
/// # Errors
///
/// `Memory` where a growth of memory was refused.
pub fn another_way(
    alloc: Global,
    dump: &Dump,
    depth: Depth,
    frame: u64,
    first: Vec<TableEntry>,
) -> Result<(Vec<TableEntry>, Vec<TableEntry>), Memory>
    requires { HasTwoWays dump.now.frames (levels depth) dump.now.root frame }
    ensures first { IfOk result (λ ways. ways.0 ≡ first) }
    ensures second { IfOk result (λ ways.
        IsAnotherWay dump.now.frames (levels depth) dump.now.root frame first.items ways.1.items) }
{
    let target = Target {
        frame,
        reserved: None,
        other: Some(first),
    };
    let Some(second) = find_way(alloc, dump, depth, &target)? else {
        unreachable!()
    };
    match target.other {
        Some(first) => Ok((first, second)),
        None => unreachable!(),
    }
}

/// The word of a frame at an index, as an entry of a level, which has a reserved bit set.
pub fn entry_at(dump: &Dump, level: u8, frame: u64, index: u16) -> TableEntry
    requires { IsReservedAt dump.now.frames level frame index }
    ensures level { result.level ≡ level }
    ensures frame { result.frame ≡ frame }
    ensures index { result.index ≡ index }
    ensures reserved { HasReservedWord dump.now.frames result }
{
    match dump.words(frame) {
        Some(words) => TableEntry {
            level,
            frame,
            index,
            word: words.word(index as usize),
        },
        None => unreachable!(),
    }
}

/// The first way from the root of a dump to a table that has at an index a word with a reserved bit set, where some way leads there. With
/// it come that word, as an entry of the table's level, and the lowest such bit. Allocates memory for the way.
///
/// # Errors
///
/// `Memory` where a growth of memory was refused.
pub fn way_to_reserved(
    alloc: Global,
    dump: &Dump,
    depth: Depth,
    frame: u64,
    index: u16,
) -> Result<(Vec<TableEntry>, TableEntry, u8), Memory>
    requires { (steps : List TableEntry) × (level : ℕ) × IsRootPath depth dump.now level frame steps
        × IsReservedAt dump.now.frames level frame index }
    ensures leads { IfOk result (λ way.
        IsRootPath depth dump.now way.1.level way.1.frame way.0.items) }
    ensures frame { IfOk result (λ way. way.1.frame ≡ frame) }
    ensures index { IfOk result (λ way. way.1.index ≡ index) }
    ensures reserved { IfOk result (λ way. HasReservedWord dump.now.frames way.1) }
    ensures bit { IfOk result (λ way. IsLowestReservedBit way.1.level way.1.word way.2) }
{
    let target = Target {
        frame,
        reserved: Some(index),
        other: None,
    };
    let Some(path) = find_way(alloc, dump, depth, &target)? else {
        unreachable!()
    };
    let entry = entry_at(dump, depth.levels() - path.len() as u8, frame, index);
    Ok((path, entry, reserved_bit(entry.level, entry.word)))
}

/// Adds the entries that the walk of an address reads from the frame of a number on, the table of a level. Allocates room for them.
fn read_on(
    dump: &Dump,
    level: u8,
    number: u64,
    address: u64,
    path: &mut Vec<TableEntry>,
) -> Result<(), Memory>
    requires { level ≤ MOST_LEVELS }
    ensures { OnOk result (path.new.items
        ≡ path.old.items ++ entries_read dump.now.frames level number address) }
{
    if level == 0 {
        return Ok(());
    }
    let Some(words) = dump.words(number) else {
        return Ok(());
    };
    let index = index_at(level, address);
    let word = words.word(index);
    path.push(TableEntry {
        level,
        frame: number,
        index: index as u16,
        word,
    })?;
    if let Meaning::Table(next, _) = Entry::new(word).read(level) {
        return read_on(dump, level - 1, next, address, path);
    }
    Ok(())
}

/// The entries that the walk of an address at this depth reads from the root of a dump on, in their order: at most one a level,
/// and none where the dump lacks the root. The bits of the address above the translated ones are not read. Allocates the entries.
///
/// # Errors
///
/// `Memory` where a growth of memory was refused.
pub fn entries_read(
    alloc: Global,
    dump: &Dump,
    depth: Depth,
    address: u64,
) -> Result<Vec<TableEntry>, Memory>
    ensures { IfOk result (λ path.
        path.items ≡ entries_read dump.now.frames (levels depth) dump.now.root address) }
{
    let mut path = Vec::new(alloc);
    read_on(dump, depth.levels(), dump.root(), address, &mut path)?;
    Ok(path)
}
