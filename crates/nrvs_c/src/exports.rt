//! The calls for C. Each begins with the handle and the memory lent: frames of 512 words, and marks, which are as the last call
//! with the handle left them. A call that only asks is given all three to read, and can change none of them.
ghost use Rattle.std.specs.Prelude.{◌≡◌, ◌≢◌, ◌≤◌, [], length, drop};
ghost use Rattle.vs_types.specs.Codes.{size_code, rights_code, mode_code, access_code};
ghost use Rattle.vs_types.specs.Depth.{IsCanonical};
ghost use Rattle.vs_types.specs.Operation.{action_fault};
ghost use Rattle.vs_types.specs.Query.{query_fault};
ghost use Rattle.vs_types.specs.declared.requests.request.Query.{Query};
ghost use Rattle.vs_types.specs.Space as spaces;
ghost use Rattle.vs_types.specs.Space.{no_pages, table_count};
ghost use Rattle.vs_types.specs.Step.{allow, look};
ghost use Rattle.vs_types.specs.declared.addresses.access.Access.{Access};
ghost use Rattle.vs_types.specs.declared.addresses.access.Mode.{Mode};
ghost use Rattle.vs_types.specs.declared.requests.op.Action.{Action};
ghost use Rattle.vs_types.specs.declared.addresses.page.Page.{Page};
ghost use Rattle.vs_types.specs.declared.addresses.page.Rights.{Rights};
ghost use Rattle.vs_types.specs.declared.addresses.page.Size.{Size};
ghost use Rattle.vs_space.specs.Table.{IsTableOf};
ghost use Rattle.nrvs_c.specs.Call.{IsSound, Steps, Tells};
ghost use Rattle.nrvs_c.specs.Status.{new_status, status_if};
ghost use Rattle.nrvs_c.specs.Table.{IsUsable, depth_in, lent_status, lent_table};

use crate::change::{apply, make};
use crate::codes::{access_of, mode_of, rights_of, size_of};
use crate::reply::Reply;
use crate::status::{
    BAD_ACCESS, BAD_BASE, BAD_FRAMES, BAD_LEVELS, BAD_MARKS, BAD_MODE, BAD_RIGHTS, BAD_SIZE,
    NOT_CANONICAL, OK, status_of,
};
use crate::table::Table;
use crate::view::View;
use vs_arena::{FRAME_WORDS, FrameMark};
use vs_types::{Depth, Op, TABLES};

/// Frame numbers are below this.
const FRAME_NUMBERS: u64 = 1 << 40;

/// Makes a page table with no pages in the memory lent, which may have any content. Frame number `base` is the first frame.
#[unsafe(no_mangle)]
pub extern "C" fn nrvs_table_new(
    table: &mut Table,
    words: &mut [[u64; FRAME_WORDS]],
    marks: &mut [FrameMark],
    levels: u64,
    base: u64,
) -> u32
    ensures status { result ≡ new_status levels (length words.old) (length marks.old) base }
    ensures usable { result ≡ 0 → IsUsable table.new words.new marks.new }
    ensures sound { result ≡ 0 → IsSound table.new words.new marks.new }
    ensures empty { result ≡ 0 → IsTableOf (lent_table [] table.new words.new marks.new) no_pages }
    ensures same_base { result ≡ 0 → table.new.base ≡ base }
    ensures levels { result ≡ 0 → table.new.levels ≡ levels }
    ensures refused { result ≢ 0
        → (table.new ≡ table.old) × (words.new ≡ words.old) × (marks.new ≡ marks.old) }
    ensures surplus_marks { drop (length words.old) marks.new
        ≡ drop (length words.old) marks.old }
{
    let depth = match levels {
        4 => Depth::Four,
        5 => Depth::Five,
        _ => return BAD_LEVELS,
    };
    if words.len() == 0 || words.len() > usize::from(TABLES) {
        return BAD_FRAMES;
    }
    if marks.len() < words.len() {
        return BAD_MARKS;
    }
    if base > FRAME_NUMBERS - words.len() as u64 {
        return BAD_BASE;
    }
    make(table, words, marks, depth, base);
    OK
}

/// Maps a page: `Space::apply` of a map.
#[unsafe(no_mangle)]
pub extern "C" fn nrvs_table_map(
    table: &mut Table,
    words: &mut [[u64; FRAME_WORDS]],
    marks: &mut [FrameMark],
    base: u64,
    size: u32,
    physical: u64,
    rights: u32,
    reply: &mut Reply,
) -> u32
    requires { IsSound table.old words.old marks.old }
    ensures not_usable { lent_status table.old words.old marks.old ≢ 0
        → result ≡ lent_status table.old words.old marks.old }
    ensures no_size { IsUsable table.old words.old marks.old
        → ((s : Size) → size ≡ size_code s → ⊥)
        → result ≡ 6 }
    ensures no_rights { IsUsable table.old words.old marks.old → (s : Size) → size ≡ size_code s
        → ((r : Rights) → rights ≡ rights_code r → ⊥) → result ≡ 7 }
    ensures status { IsUsable table.old words.old marks.old → (page : Page) → page.base ≡ base
        → size ≡ size_code page.size → page.phys ≡ physical
        → rights ≡ rights_code page.rights
        → result ≡ status_if (action_fault (depth_in table.old) (Action.Map page)) }
    ensures sound { IsSound table.new words.new marks.new }
    ensures done { result ≡ 0 → (page : Page) × (page.base ≡ base) × (size ≡ size_code page.size)
        × (page.phys ≡ physical)
        × (rights ≡ rights_code page.rights)
        × Steps table.old words.old marks.old (Action.Map page) table.new words.new marks.new
        reply.new }
    ensures refused { result ≢ 0
        → (table.new ≡ table.old) × (words.new ≡ words.old) × (marks.new ≡ marks.old)
        × (reply.new ≡ reply.old) }
    ensures surplus_marks { drop (length words.old) marks.new
        ≡ drop (length words.old) marks.old }
{
    let status = table.status(words, marks);
    if status != OK {
        return status;
    }
    let Some(size) = size_of(size) else {
        return BAD_SIZE;
    };
    let Some(rights) = rights_of(rights) else {
        return BAD_RIGHTS;
    };
    match Op::map(table.depth(), base, size, physical, rights) {
        Ok(op) => {
            *reply = Reply::of(apply(table, words, marks, op));
            OK
        }
        Err(fault) => status_of(fault),
    }
}

/// Unmaps the page that begins at an address: `Space::apply` of an unmap.
#[unsafe(no_mangle)]
pub extern "C" fn nrvs_table_unmap(
    table: &mut Table,
    words: &mut [[u64; FRAME_WORDS]],
    marks: &mut [FrameMark],
    base: u64,
    reply: &mut Reply,
) -> u32
    requires { IsSound table.old words.old marks.old }
    ensures not_usable { lent_status table.old words.old marks.old ≢ 0
        → result ≡ lent_status table.old words.old marks.old }
    ensures status { IsUsable table.old words.old marks.old
        → result ≡ status_if (action_fault (depth_in table.old) (Action.Unmap base)) }
    ensures sound { IsSound table.new words.new marks.new }
    ensures done { result ≡ 0
        → Steps table.old words.old marks.old (Action.Unmap base) table.new words.new marks.new
        reply.new }
    ensures refused { result ≢ 0
        → (table.new ≡ table.old) × (words.new ≡ words.old) × (marks.new ≡ marks.old)
        × (reply.new ≡ reply.old) }
    ensures surplus_marks { drop (length words.old) marks.new
        ≡ drop (length words.old) marks.old }
{
    let status = table.status(words, marks);
    if status != OK {
        return status;
    }
    match Op::unmap(table.depth(), base) {
        Ok(op) => {
            *reply = Reply::of(apply(table, words, marks, op));
            OK
        }
        Err(fault) => status_of(fault),
    }
}

/// Gives the page that begins at an address these rights and no others: `Space::apply` of a protect.
#[unsafe(no_mangle)]
pub extern "C" fn nrvs_table_protect(
    table: &mut Table,
    words: &mut [[u64; FRAME_WORDS]],
    marks: &mut [FrameMark],
    base: u64,
    rights: u32,
    reply: &mut Reply,
) -> u32
    requires { IsSound table.old words.old marks.old }
    ensures not_usable { lent_status table.old words.old marks.old ≢ 0
        → result ≡ lent_status table.old words.old marks.old }
    ensures no_rights { IsUsable table.old words.old marks.old
        → ((r : Rights) → rights ≡ rights_code r → ⊥)
        → result ≡ 7 }
    ensures status { IsUsable table.old words.old marks.old → (r : Rights) → rights ≡ rights_code r
        → result ≡ status_if (action_fault (depth_in table.old) (Action.Protect base r)) }
    ensures sound { IsSound table.new words.new marks.new }
    ensures done { result ≡ 0 → (given : Rights) × (rights ≡ rights_code given)
        × Steps table.old words.old marks.old (Action.Protect base given) table.new words.new
        marks.new reply.new }
    ensures refused { result ≢ 0
        → (table.new ≡ table.old) × (words.new ≡ words.old) × (marks.new ≡ marks.old)
        × (reply.new ≡ reply.old) }
    ensures surplus_marks { drop (length words.old) marks.new
        ≡ drop (length words.old) marks.old }
{
    let status = table.status(words, marks);
    if status != OK {
        return status;
    }
    let Some(rights) = rights_of(rights) else {
        return BAD_RIGHTS;
    };
    match Op::protect(table.depth(), base, rights) {
        Ok(op) => {
            *reply = Reply::of(apply(table, words, marks, op));
            OK
        }
        Err(fault) => status_of(fault),
    }
}

/// Translates an address: `Space::resolve`.
#[unsafe(no_mangle)]
pub extern "C" fn nrvs_table_resolve(
    table: &Table,
    words: &[[u64; FRAME_WORDS]],
    marks: &[FrameMark],
    address: u64,
    reply: &mut Reply,
) -> u32
    requires { IsSound table.now words.now marks.now }
    ensures not_usable { lent_status table.now words.now marks.now ≢ 0
        → result ≡ lent_status table.now words.now marks.now }
    ensures status { IsUsable table.now words.now marks.now
        → result ≡ status_if (query_fault (depth_in table.now) (Query.Resolve address)) }
    ensures done { result ≡ 0 → IsCanonical (depth_in table.now) address }
    ensures told { result ≡ 0
        → Tells table.now words.now marks.now (λ space. look space address) reply.new }
    ensures refused { result ≢ 0 → reply.new ≡ reply.old }
{
    let status = table.status(words, marks);
    if status != OK {
        return status;
    }
    if !table.depth().is_canonical(address) {
        return NOT_CANONICAL;
    }
    let view = View {
        table,
        words,
        marks,
    };
    *reply = Reply::of(view.resolve(address));
    OK
}

/// Whether an access of an address is allowed, and where that is: `Space::access`.
#[unsafe(no_mangle)]
pub extern "C" fn nrvs_table_access(
    table: &Table,
    words: &[[u64; FRAME_WORDS]],
    marks: &[FrameMark],
    address: u64,
    mode: u32,
    access: u32,
    reply: &mut Reply,
) -> u32
    requires { IsSound table.now words.now marks.now }
    ensures not_usable { lent_status table.now words.now marks.now ≢ 0
        → result ≡ lent_status table.now words.now marks.now }
    ensures no_mode { IsUsable table.now words.now marks.now
        → ((m : Mode) → mode ≡ mode_code m → ⊥)
        → result ≡ 8 }
    ensures no_access { IsUsable table.now words.now marks.now → (m : Mode) → mode ≡ mode_code m
        → ((a : Access) → access ≡ access_code a → ⊥) → result ≡ 9 }
    ensures status { IsUsable table.now words.now marks.now → (m : Mode) → mode ≡ mode_code m
        → (a : Access) → access ≡ access_code a
        → result ≡ status_if (query_fault (depth_in table.now) (Query.Resolve address)) }
    ensures done { result ≡ 0 → IsCanonical (depth_in table.now) address }
    ensures told { result ≡ 0 → (by : Mode) × (does : Access) × (mode ≡ mode_code by)
        × (access ≡ access_code does)
        × Tells table.now words.now marks.now (λ space. allow space address by does) reply.new }
    ensures refused { result ≢ 0 → reply.new ≡ reply.old }
{
    let status = table.status(words, marks);
    if status != OK {
        return status;
    }
    let Some(mode) = mode_of(mode) else {
        return BAD_MODE;
    };
    let Some(access) = access_of(access) else {
        return BAD_ACCESS;
    };
    if !table.depth().is_canonical(address) {
        return NOT_CANONICAL;
    }
    let view = View {
        table,
        words,
        marks,
    };
    *reply = Reply::of(view.resolve(address).accessed(mode, access));
    OK
}

/// How many tables there are, the root among them: `Space::tables`.
#[unsafe(no_mangle)]
pub extern "C" fn nrvs_table_tables(
    table: &Table,
    words: &[[u64; FRAME_WORDS]],
    marks: &[FrameMark],
    count: &mut usize,
) -> u32
    requires { IsSound table.now words.now marks.now }
    ensures not_usable { lent_status table.now words.now marks.now ≢ 0
        → result ≡ lent_status table.now words.now marks.now }
    ensures status { IsUsable table.now words.now marks.now → result ≡ 0 }
    ensures usable { result ≡ 0 → IsUsable table.now words.now marks.now }
    ensures counts { result ≡ 0 → (space : spaces.Space)
        → IsTableOf (lent_table [] table.now words.now marks.now) space
        → count.new ≡ table_count (depth_in table.now) space }
    ensures at_most { result ≡ 0 → count.new ≤ length words.now }
    ensures refused { result ≢ 0 → count.new ≡ count.old }
{
    let status = table.status(words, marks);
    if status != OK {
        return status;
    }
    let view = View {
        table,
        words,
        marks,
    };
    *count = view.tables();
    OK
}
