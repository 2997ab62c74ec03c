//! The end for the parts of what is said: lines, or a JSON object.

ghost use Rattle.std.specs.Prelude.{◌≡◌, OnOk, map, string_bytes};
ghost use Rattle.serde_json.specs.View.{members_view};
ghost use Rattle.audit_texts.specs.Parts.{Put, lines, members, part_of, put_all};

use crate::json::fact_json::Members;
use crate::json::part_json::put_parts;
use crate::lines::part_text::push_parts;
use crate::lines::parts::Part;
use std::alloc::{AllocError, Global};

/// What takes parts.
pub trait Output {
    ghost held: { Self → Put };

    /// Puts parts behind what is there, and allocates their texts.
    ///
    /// # Errors
    ///
    /// Out of memory. Some of the parts may have been put.
    fn put_all(&mut self, alloc: Global, parts: &[Part]) -> Result<(), AllocError>
        ensures { OnOk result (held self.new ≡ put_all (map part_of parts.now) (held self.old)) };
}

/// The lines of parts.
impl Output for String {
    ghost held = { λ text. lines (string_bytes text) };

    #[tactic(auto, unfolding(crate::specs::Parts::put_all))]
    fn put_all(&mut self, alloc: Global, parts: &[Part]) -> Result<(), AllocError> {
        push_parts(alloc, self, parts)
    }
}

/// The members of an object.
impl Output for Members {
    ghost held = { λ object. members (members_view object.entries) };

    #[tactic(auto, unfolding(crate::specs::Parts::put_all))]
    fn put_all(&mut self, alloc: Global, parts: &[Part]) -> Result<(), AllocError> {
        put_parts(self, alloc, parts)
    }
}
