//! The owner of tables, in words.

ghost use Rattle.std.specs.Prelude.{◌≡◌, IfOk, string_bytes};
ghost use Rattle.audit_texts.specs.Owners.{of_owner, owner_text};

use nr_explain::Owner;
use std::alloc::{AllocError, Global};

/// The first text of a dump, the second of a start.
#[tactic(auto, unfolding(crate::specs::Owners::of_owner))]
pub(crate) fn of_owner(owner: Owner, dumps: &'static str, starts: &'static str) -> &'static str
    ensures { result.now ≡ of_owner owner dumps.now starts.now }
{
    match owner {
        Owner::Dump(_) => dumps,
        Owner::Start => starts,
    }
}

/// The owner of the tables.
#[tactic(auto, unfolding(crate::specs::Owners::owner_text))]
pub(crate) fn owner_text(alloc: Global, owner: Owner) -> Result<String, AllocError>
    ensures { IfOk result (λ text. string_bytes text ≡ owner_text owner) }
{
    match owner {
        Owner::Dump(replica) => format!(in alloc; "replica {replica}"),
        Owner::Start => String::from_str(alloc, "the start"),
    }
}
