//! Pages without their base, in few bytes.
ghost use Rattle.std.specs.Prelude.{◌≡◌};
ghost use Rattle.vs_plain.specs.inside.Listed.{page_from};

use crate::byte_aligned::ByteAligned;
use std::mem::size_of;
use vs_types::{Page, Rights, Size};

/// A page without its base, in 12 bytes.
#[derive(Debug, Drop)]
pub(crate) struct Mapping {
    phys: ByteAligned,
    size: Size,
    pub(crate) rights: Rights,
}

const _: () = prove!(size_of::<Mapping>() == 12);

impl Mapping {
    pub(crate) fn of(page: Page) -> Mapping
        ensures { page_from page.base result ≡ page }
    {
        Mapping {
            phys: ByteAligned::of(page.phys),
            size: page.size,
            rights: page.rights,
        }
    }

    /// The page that is so mapped from this base on.
    pub(crate) fn page_from(&self, base: u64) -> Page
        ensures { result ≡ page_from base self.now }
    {
        Page {
            base,
            phys: self.phys.get(),
            size: self.size,
            rights: self.rights,
        }
    }
}
