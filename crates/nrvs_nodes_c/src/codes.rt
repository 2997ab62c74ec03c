//! The statuses of refusals.
ghost use Rattle.std.specs.Prelude.{◌≡◌, ◌≤◌};
ghost use Rattle.nrvs_nodes_c.specs.Numbers.{refusal_code};

use nr_machine::Refusal;

/// The status where there is no such node.
pub(crate) const NO_NODE: u32 = 20;

/// The status of a refusal.
pub(crate) fn status_of(refusal: Refusal) -> u32
    ensures code { result ≡ refusal_code refusal }
    ensures high { 16 ≤ result }
{
    match refusal {
        Refusal::Busy => 16,
        Refusal::Empty => 17,
        Refusal::TooMany => 18,
        Refusal::TooLarge => 19,
    }
}
