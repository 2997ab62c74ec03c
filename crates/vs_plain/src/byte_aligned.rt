//! Numbers that lie at any byte.
ghost use Rattle.std.specs.Prelude.{◌≡◌};

use std::fmt;
use std::marker::Model;

/// A number that may lie at any byte, so that what holds it has no gaps. Contracts see the number.
#[derive(Drop)]
pub(crate) struct ByteAligned {
    bytes: [u8; 8],
}

impl Model for ByteAligned {
    ghost use Rattle.std.specs.Int.{w64, from_le_bytes};
    ghost use Rattle.std.specs.Prelude.{ℕ};

    ghost Value = { ℕ };

    ghost view = { λ n. from_le_bytes w64 n.bytes };
}

impl fmt::Debug for ByteAligned {
    fn fmt<W: fmt::Write>(&self, f: &mut fmt::Formatter<W>) -> fmt::Result {
        self.get().fmt(f)
    }
}

impl ByteAligned {
    pub(crate) fn of(number: u64) -> ByteAligned
        ensures { result ≡ number }
    {
        ByteAligned {
            bytes: number.to_le_bytes(),
        }
    }

    pub(crate) fn get(&self) -> u64
        ensures { result ≡ self.now }
    {
        u64::from_le_bytes(self.bytes)
    }
}
