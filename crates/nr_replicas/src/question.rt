//! What a read asks of an address.
use vs_types::{Access, Mode};

/// What a read asks of an address.
#[derive(Clone, Copy, Debug, PartialEq, Eq)]
pub(crate) enum Question {
    /// Its translation.
    Resolve,
    /// Whether it may be accessed so.
    Access(Mode, Access),
}
