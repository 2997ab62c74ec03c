//! Pages, their sizes and their rights.
ghost use Rattle.std.specs.Prelude.{◌≡◌, ◌≢◌, ◌==◌, ◌%◌, IsTrue, IsFalse};

/// How many bytes a page has.
#[derive(Clone, Copy, Debug, PartialEq, Eq)]
pub enum Size {
    /// 4,096 bytes.
    K4,
    /// 2,097,152 bytes.
    M2,
    /// 1,073,741,824 bytes.
    G1,
}

/// What may be done at an address beside a supervisor's read, which is always allowed.
#[derive(Clone, Copy, Debug, PartialEq, Eq)]
pub struct Rights {
    /// A write.
    pub write: bool,
    /// An access in user mode.
    pub user: bool,
    /// An instruction fetch.
    pub exec: bool,
}

/// A run of addresses that is translated as one.
#[derive(Clone, Copy, Debug, PartialEq, Eq)]
pub struct Page {
    /// The first address.
    pub base: u64,
    pub size: Size,
    pub rights: Rights,
    /// The physical address to which the first address is translated. It comes last: the small fields of the other cases of
    /// an `Action` then share no bytes with it, and it is copied as one word.
    pub phys: u64,
}

impl Size {
    ghost use Rattle.vs_types.specs.Entry.{size_at};
    ghost use Rattle.vs_types.specs.Page.{level_of, bytes_of};

    /// 4,096, 2,097,152 or 1,073,741,824.
    pub fn bytes(self) -> u64
        ensures { result ≡ bytes_of self }
    {
        match self {
            Size::K4 => 1 << 12,
            Size::M2 => 1 << 21,
            Size::G1 => 1 << 30,
        }
    }

    /// Whether it divides the number.
    pub(crate) fn divides(self, number: u64) -> bool
        ensures { result ≡ (number % bytes_of self == 0) }
    {
        match self {
            Size::K4 => number % (1 << 12) == 0,
            Size::M2 => number % (1 << 21) == 0,
            Size::G1 => number % (1 << 30) == 0,
        }
    }

    /// The level of the tables that have the entries of such pages: 1 to 3.
    pub fn level(self) -> u8
        ensures { result ≡ level_of self }
    {
        match self {
            Size::K4 => 1,
            Size::M2 => 2,
            Size::G1 => 3,
        }
    }

    /// The size of the pages whose entries are in tables of this level: 1 to 3.
    pub fn at_level(level: u8) -> Size
        ensures { result ≡ size_at level }
    {
        match level {
            0 | 1 => Size::K4,
            2 => Size::M2,
            _ => Size::G1,
        }
    }
}

impl Rights {
    ghost use Rattle.vs_types.specs.Page.{intersection};

    /// Everything is allowed.
    pub const ALL: Rights = Rights {
        write: true,
        user: true,
        exec: true,
    };

    /// Nothing is allowed but a supervisor's read.
    pub const NONE: Rights = Rights {
        write: false,
        user: false,
        exec: false,
    };

    /// What both allow.
    pub fn intersection(self, other: Rights) -> Rights
        ensures { result ≡ intersection self other }
    {
        Rights {
            write: self.write && other.write,
            user: self.user && other.user,
            exec: self.exec && other.exec,
        }
    }

    /// Whether entries that allow these rights together allow all that is wanted.
    pub fn permits(self, wanted: Rights) -> bool
        ensures all { IsTrue result → intersection self wanted ≡ wanted }
        ensures less { IsFalse result → intersection self wanted ≢ wanted }
    {
        self.intersection(wanted) == wanted
    }
}

impl Page {
    /// The first physical address that no page may have.
    pub const PHYS_END: u64 = 1 << 51;
}
