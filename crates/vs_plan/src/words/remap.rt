//! The plan of a remap.
ghost use Rattle.std.specs.Prelude.{◌≡◌, ◌≤◌};
ghost use Rattle.vs_plan.specs.Changes.{phys_refusal};
ghost use Rattle.vs_plan.specs.declared.plans.request.Request.{Request};
ghost use Rattle.vs_plan.specs.inside.Ended.{IsAtEnd, IsRightAt};

use crate::plans::plan::{Flush, Plan, Reply, Store};
use crate::plans::planner::Planner;
use crate::plans::request::ends_beyond;
use vs_types::{
    Answer, Entry, Meaning, Rights, Size, bits_in, index_at, with_address, with_rights,
};

impl Planner {
    /// Lets the page at the end of the way lead to another physical address, with other rights, by one store.
    #[inline(never)]
    pub(crate) fn plan_remap(&self, base: u64, phys: u64, rights: Rights, word: u64) -> Plan
        requires end { IsAtEnd self.now }
        requires request { self.now.request ≡ Request.Remap base phys rights }
        ensures { IsRightAt self.now word result }
    {
        let Meaning::Leaf(_, own) = Entry::new(word).read(self.level) else {
            return self.plan_absent(base, word);
        };
        let size = Size::at_level(self.level);
        let offset = base % size.bytes();
        if offset != 0 {
            return Plan::nothing(Reply::Answer(Answer::Inside(base - offset)), 0);
        }
        if let Some(reply) = phys_refusal(phys, self.target.phys_bits, size) {
            return Plan::nothing(reply, 0);
        }
        if !self.rights.permits(rights) {
            return Plan::nothing(Reply::Rights, 0);
        }
        let answer = Answer::Changed(self.rights.intersection(own));
        let mut plan = Plan::nothing(Reply::Answer(answer), bits_in(size, word));
        let new = with_rights(with_address(size, word, phys), rights);
        if new != word {
            plan.stores.push(Store {
                frame: self.number,
                index: index_at(self.level, base),
                old: word,
                new,
            });
            plan.flush = Flush::Page(base, size);
        }
        plan
    }
}

/// Why no page of this size can begin at this physical address.
pub(crate) fn phys_refusal(phys: u64, phys_bits: u8, size: Size) -> Option<Reply>
    requires { phys_bits ≤ 52 }
    ensures { result ≡ phys_refusal phys phys_bits size }
{
    let bytes = size.bytes();
    if phys % bytes != 0 {
        return Some(Reply::PhysUnaligned);
    }
    if ends_beyond(phys, bytes, phys_bits) {
        return Some(Reply::PhysRange);
    }
    None
}
