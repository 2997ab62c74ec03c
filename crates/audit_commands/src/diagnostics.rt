//! Standard error, where it is said why there is no answer.

use audit_readers::Progress;
use std::io::Write;

/// Standard error, or another writer in its place.
pub trait Diagnostics: Write + Progress {
    ghost use Rattle.std.specs.Prelude.{◌≡◌, Bool};

    /// Whether it is a terminal.
    ghost is_seen: { Self → Bool };

    /// Whether it is a terminal, so that a person reads it.
    fn is_terminal(&self) -> bool
        ensures { result ≡ is_seen self.now };
}
