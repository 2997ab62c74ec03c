//! C's structs, and the planner that is kept in one between two calls.
ghost use Rattle.std.specs.Prelude.{◌≡◌, ◌<◌, ◌≤◌, IsFalse, IsTrue};
ghost use Rattle.vs_plan.specs.declared.plans.plan.TheConstants.{MOST_STORES};
ghost use Rattle.vs_plan.specs.Target.{highest_link};
ghost use Rattle.nrvs_plan_c.specs.Kept.{planner_in, request_in, target_at, target_in};

use crate::records::codes::{BRIEF, code_of, depth_in, phase_in, rights_in, size_in};
use crate::records::told::Reply;
use arrayvec::ArrayVec;
use vs_plan::{Fill, MOST_STORES, MOST_UNLINKED, Planner, Request, Store};
use vs_types::{FRAME_WORDS, Page, allowed_of, rights_at};

/// The page table that a plan is for, as C has it.
#[repr(C)]
#[derive(Clone, Copy, Debug, PartialEq, Eq)]
pub struct Target {
    /// The frame number of the root.
    pub root: u64,
    /// 4 or 5.
    pub levels: u32,
    /// How many bits a physical address has.
    pub phys_bits: u32,
    /// Tables to which entries of this level and above lead stay linked; 0: there are none.
    pub pinned: u32,
}

/// The words of a frame.
#[repr(C)]
#[derive(Clone, Copy, Debug)]
pub struct Words {
    pub word: [u64; FRAME_WORDS],
}

/// What was asked for: the numbers of a target and of a request.
#[repr(C)]
#[derive(Clone, Copy, Debug, PartialEq, Eq)]
pub struct Call {
    /// The frame number of the root.
    pub root: u64,
    /// The address.
    pub address: u64,
    /// The physical address of a map, a remap or a collapse; the number of the first part of an unmap of parts.
    pub physical: u64,
    /// The bits of a map's entry beside its address and its rights; how many parts an unmap of parts has.
    pub bits: u64,
    /// 4 or 5.
    pub levels: u8,
    /// How many bits a physical address has.
    pub phys_bits: u8,
    /// Tables to which entries of this level and above lead stay linked; 0, and above the root's level: there are none.
    pub pinned: u8,
    /// 0 a map, 1 an unmap, 2 a protect, 3 what only asks, 4 a remap, 5 a split, 6 a join, 7 a prune, 8 an unmap of parts, 9 a
    /// collapse.
    pub kind: u8,
    /// The code of a map's size.
    pub size: u8,
    /// The code of the rights of a map, a protect, a remap or a collapse.
    pub rights: u8,
}

/// How far the way has come, as a planner has it.
#[repr(C)]
#[derive(Clone, Copy, Debug, PartialEq, Eq)]
pub struct Way {
    /// What the entries on the way allow, at the places that these bits have in an entry; bit 63 is set where instructions may be fetched.
    pub allowed: u64,
    /// 0 to 2: words are waited for; 3 and 4: a frame; 5: nothing, since the plan is there.
    pub phase: u8,
    pub level: u8,
    pub stop: u8,
    pub height: u8,
}

/// What was met on the way, as a planner has it.
#[repr(C)]
#[derive(Clone, Copy, Debug, PartialEq, Eq)]
pub struct Met {
    pub base: u64,
    pub below: u64,
    pub numbers: [u64; 6],
    pub words: [u64; 6],
}

/// A plan, and how far it is. What most plans have comes first, in two lines of a cache.
#[repr(C)]
#[derive(Clone, Copy, Debug)]
pub struct Plan {
    /// The frame whose words are waited for.
    pub frame: u64,
    /// What came out.
    pub reply: Reply,
    /// The bits of the page's entry beside its address and its rights; of an empty table an address on whose way it is; of a reserved
    /// bit the index of the word.
    pub bits: u64,
    /// 0 nothing, 1 the page, 2 the page and the tables of its range, 3 all that is kept of a range.
    pub flush: u32,
    /// The code of the size of the page, or of the range.
    pub flush_size: u32,
    /// Its first address.
    pub flush_base: u64,
    /// How many tables are unlinked.
    pub unlinked_count: usize,
    /// 1 where a frame is filled before the stores, else 0.
    pub fills: u64,
    /// How many stores there are.
    pub store_count: usize,
    /// The library's own.
    pub way: Way,
    pub stores: [Store; MOST_STORES],
    pub unlinked: [u64; MOST_UNLINKED],
    /// The frame that is filled, and its words; what it was where none is.
    pub fill: Fill,
    /// The library's own.
    pub call: Call,
    /// The library's own.
    pub met: Met,
}

impl Call {
    /// The page table that the plan is for.
    pub(crate) fn target(self) -> vs_plan::Target
        ensures { result ≡ target_in self }
    {
        vs_plan::Target {
            depth: depth_in(self.levels),
            pinned: self.pinned,
            phys_bits: self.phys_bits,
            root: self.root,
        }
    }

    /// The page table that a way is gone for in the phase of a code.
    fn target_at(self, code: u8) -> vs_plan::Target
        ensures { result ≡ target_at code self }
    {
        let target = self.target();
        if code == BRIEF {
            return vs_plan::Target {
                pinned: 1,
                ..target
            };
        }
        target
    }

    /// Whether each table stays linked, except where a link takes the place of a page.
    pub(crate) fn pins_all(self) -> bool
        ensures stay { IsTrue result → highest_link (target_in self) ≤ 1 }
        ensures may_go { IsFalse result → 1 < highest_link (target_in self) }
    {
        self.pinned == 1 || self.pinned == 2
    }

    /// What is to be done.
    #[inline(always)]
    pub(crate) fn request(self) -> Request
        ensures { result ≡ request_in self }
    {
        match self.kind {
            0 => Request::Map(
                Page {
                    base: self.address,
                    size: size_in(self.size),
                    rights: rights_in(self.rights),
                    phys: self.physical,
                },
                self.bits,
            ),
            1 => Request::Unmap(self.address),
            2 => Request::Protect(self.address, rights_in(self.rights)),
            3 => Request::Ask(self.address),
            4 => Request::Remap(self.address, self.physical, rights_in(self.rights)),
            5 => Request::Split(self.address),
            6 => Request::Join(self.address),
            7 => Request::Prune(self.address),
            8 => Request::UnmapPart(self.address, self.physical, self.bits),
            _ => Request::Collapse(self.address, self.physical, rights_in(self.rights)),
        }
    }
}

/// The planner that is kept.
#[inline(never)]
pub(crate) fn open(plan: &Plan) -> Planner
    requires { plan.now.store_count ≤ MOST_STORES }
    ensures is { result ≡ planner_in plan.now }
    ensures target { 1 ≤ plan.now.way.phase → result.target ≡ target_in plan.now.call }
{
    let mut stores = ArrayVec::new();
    let Ok(()) = stores.try_extend_from_slice(&plan.stores[..plan.store_count]) else {
        unreachable!();
    };
    Planner {
        target: plan.call.target_at(plan.way.phase),
        request: plan.call.request(),
        phase: phase_in(plan.way.phase),
        level: plan.way.level,
        number: plan.frame,
        rights: rights_at(plan.way.allowed),
        numbers: plan.met.numbers,
        words: plan.met.words,
        stop: plan.way.stop,
        base: plan.met.base,
        height: plan.way.height,
        below: plan.met.below,
        stores,
    }
}

/// Keeps a planner of the same request.
pub(crate) fn keep(plan: &mut Plan, planner: &Planner)
    requires target { planner.now.target ≡ target_in plan.old.call }
    requires request { planner.now.request ≡ request_in plan.old.call }
    ensures kept { planner_in plan.new ≡ planner.now }
    ensures same { plan.new.call ≡ plan.old.call }
    ensures count { plan.new.store_count ≤ MOST_STORES }
    ensures phase { 1 ≤ plan.new.way.phase }
{
    plan.frame = planner.number;
    plan.met.base = planner.base;
    plan.met.below = planner.below;
    plan.met.numbers = planner.numbers;
    plan.met.words = planner.words;
    plan.way.phase = code_of(planner.phase);
    plan.way.level = planner.level;
    plan.way.allowed = allowed_of(planner.rights);
    plan.way.stop = planner.stop;
    plan.way.height = planner.height;
    let count = planner.stores.len();
    plan.store_count = count;
    plan.stores[..count].copy_from_slice(planner.stores.as_slice());
}
