//! Traces and segments.

ghost use Rattle.std.specs.Prelude.{◌↔◌, IsTrue};
ghost use Rattle.nr_audit.specs.Verdict.{IsTrace};

use nr_trace::{Trace, Version};

/// Whether what was recorded is a trace, and no segment of a chain: by the version of its format.
pub fn is_trace(trace: &Trace) -> bool
    ensures { IsTrue result ↔ IsTrace trace.now }
{
    match trace.version() {
        Version::V1 | Version::V2 => true,
        Version::Segment => false,
    }
}
