//! The calls of a workload, made before they are measured.
ghost use Rattle.std.specs.Prelude.{◌↔◌, All, IsTrue};
ghost use Rattle.vs_types.specs.Depth.{IsCanonical};
ghost use Rattle.vs_types.specs.Operation.{IsAction};

use crate::fault::ProgFault;
use crate::page_table::workload::{Workload, rights_of};
use std::alloc::Global;
use vs_types::{Depth, Op};

/// The calls of a workload at a depth, made before the time is taken.
#[derive(Drop)]
pub struct Load {
    pub depth: Depth,
    pub maps: Vec<Op>,
    /// One in each page.
    pub addresses: Vec<u64>,
    pub protects: Vec<Op>,
    pub unmaps: Vec<Op>,
    ghost canonical: { All (IsCanonical depth) addresses.items },
}

impl Load {
    /// The calls for each page of a workload, by its number.
    pub fn new(alloc: Global, workload: Workload, depth: Depth) -> Result<Load, ProgFault> {
        let mut load = Load {
            depth,
            maps: Vec::new(alloc),
            addresses: Vec::new(alloc),
            protects: Vec::new(alloc),
            unmaps: Vec::new(alloc),
        };
        for number in 0..workload.pages() {
            load.add(workload, number)?;
        }
        Ok(load)
    }

    fn add_address(&mut self, address: u64) -> Result<(), ProgFault> {
        if !self.depth.is_canonical(address) {
            return Err(ProgFault::BadPage);
        }
        self.addresses.push(address)?;
        Ok(())
    }

    /// The calls for one page. Its rights are those of its number, and then those of the number's eighth.
    fn add(&mut self, workload: Workload, number: u16) -> Result<(), ProgFault> {
        let depth = self.depth;
        let page = workload.page(number);
        let map = Op::map(depth, page.base, page.size, page.phys, page.rights)?;
        let address = page.base.wrapping_add(u64::from(number % 4096));
        let protect = Op::protect(depth, page.base, rights_of(number / 8))?;
        let unmap = Op::unmap(depth, page.base)?;
        self.add_address(address)?;
        self.maps.push(map)?;
        self.protects.push(protect)?;
        self.unmaps.push(unmap)?;
        Ok(())
    }
}

/// Whether all operations are well formed at this depth.
pub fn all_fit(depth: Depth, ops: &[Op]) -> bool
    ensures { IsTrue result ↔ All (IsAction depth) ops.now }
{
    ops.iter().all(|op| op.fits(depth))
}
