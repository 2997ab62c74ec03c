//! The workloads: which pages each has.
ghost use Rattle.std.specs.Prelude.{◌<◌, ◌≤◌, ◌^◌};

use vs_types::{Page, Rights, Size};

/// Which pages are mapped, and in which order.
#[derive(Clone, Copy, Debug)]
pub enum Workload {
    /// 4 KiB pages, each after the one before.
    SmallDense,
    /// 4 KiB pages all over the address space.
    SmallSparse,
    /// 4 KiB, 2 MiB and 1 GiB pages in turn, each after the one of its size before.
    MixedDense,
    /// 4 KiB, 2 MiB and 1 GiB pages in turn, each in a gibibyte of its own, all over the address space.
    MixedSparse,
}

impl Workload {
    /// All of them, in the order in which they are run.
    pub const ALL: [Workload; 4] = [
        Workload::SmallDense,
        Workload::SmallSparse,
        Workload::MixedDense,
        Workload::MixedSparse,
    ];

    /// What is printed for it.
    pub fn name(self) -> &'static str {
        match self {
            Workload::SmallDense => "small_dense",
            Workload::SmallSparse => "small_sparse",
            Workload::MixedDense => "mixed_dense",
            Workload::MixedSparse => "mixed_sparse",
        }
    }

    /// How many pages it has. Their tables are fewer than 4,096.
    pub fn pages(self) -> u16 {
        match self {
            Workload::SmallDense | Workload::MixedDense => 32_768,
            Workload::SmallSparse | Workload::MixedSparse => 1_536,
        }
    }

    /// The page of this number. No two have an address in common.
    pub fn page(self, number: u16) -> Page {
        let size = self.size(number);
        Page {
            base: self.base(number, size),
            size,
            phys: u64::from(number) * size.bytes(),
            rights: rights_of(number),
        }
    }

    /// The size of the page of this number.
    fn size(self, number: u16) -> Size {
        match (self, number % 3) {
            (Workload::SmallDense | Workload::SmallSparse, _) => Size::K4,
            (_, 0) => Size::K4,
            (_, 1) => Size::M2,
            _ => Size::G1,
        }
    }

    /// The address at which the page of this number begins. Sparse pages go by multiples of an odd number, over the 2^36 places of 4 KiB or the
    /// 2^18 gibibytes that there are.
    fn base(self, number: u16, size: Size) -> u64 {
        let n = u64::from(number);
        match self {
            Workload::SmallDense => n << 12,
            Workload::SmallSparse => canonical((n * 0x9E3779B97 % (1 << 36)) << 12),
            Workload::MixedDense => ((n % 3) << 39) + n / 3 * size.bytes(),
            Workload::MixedSparse => {
                let gibibyte = n * 0x2545F % (1 << 18);
                let place = n * 0x9E37 % ((1 << 30) / size.bytes());
                canonical((gibibyte << 30) + place * size.bytes())
            }
        }
    }
}

/// Rights by the lowest three bits of a number.
pub fn rights_of(number: u16) -> Rights {
    Rights {
        write: number % 2 == 1,
        user: number / 2 % 2 == 1,
        exec: number / 4 % 2 == 1,
    }
}

/// The canonical address with these lowest 48 bits.
fn canonical(bits: u64) -> u64
    requires { bits < 2 ^ 48 }
{
    if bits < 1 << 47 {
        bits
    } else {
        bits + 0xFFFF_0000_0000_0000
    }
}
