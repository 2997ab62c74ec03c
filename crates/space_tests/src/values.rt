//! Values that several tests name.

use vs_types::Rights;

/// The number of frame 0 of an arena: all pages lie below the tables.
pub const BASE: u64 = 1 << 39;

pub const WRITE: Rights = Rights {
    write: true,
    ..Rights::NONE
};

pub const EXEC: Rights = Rights {
    exec: true,
    ..Rights::NONE
};

pub const USER_AND_EXEC: Rights = Rights {
    write: false,
    ..Rights::ALL
};
