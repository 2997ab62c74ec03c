//! Plans made again with a word in which a processor has set flags since it was shown.
ghost use Rattle.std.specs.Prelude.{◌≡◌, ◌<◌, IfNone, IfSome, IsTrue, IsFalse, length, slice_index_or, if◌then◌else◌};
ghost use Rattle.vs_plan.specs.declared.plans.plan.Store.{Store};
ghost use Rattle.vs_plan.specs.Again.{IsPlanAgain, bits_again, fill_again, new_again, told_again};
ghost use Rattle.vs_types.specs.Bits.{HasFlagsSet, flags_into, with_flags_of};

use crate::plans::plan::{Fill, Plan, Reply, Store};
use vs_types::{Answer, flags_into, has_flags_set, with_flags_of};

impl Store {
    /// The store, where a processor has set its flags in the word since it was shown: with the word that is there now as `old`, and
    /// these flags in `new` where that is an entry too. Of a plan that fills or unlinks a table the store `links`, and `new` stays: the
    /// flags go into the fill (`Fill::again`), or are those of a link. None where anything else differs, or the word is no entry.
    /// `Plan::again` does all this for a plan.
    pub fn again(self, word: u64, links: bool) -> Option<Store>
        ensures found { IfSome result (λ store. HasFlagsSet self.old word × (store ≡ record self {
          old = word;
          new = if links then self.new else with_flags_of word self.new;
        })) }
        ensures none { IfNone result (HasFlagsSet self.old word → ⊥) }
    {
        if !has_flags_set(self.old, word) {
            return None;
        }
        let new = if links {
            self.new
        } else {
            with_flags_of(word, self.new)
        };
        Some(Store {
            old: word,
            new,
            ..self
        })
    }
}

impl Fill {
    /// The fill, where a processor has set its flags in the word of the page that is split since it was shown: with these flags in
    /// each entry.
    pub fn again(self, word: u64) -> Fill
        ensures { result ≡ record self { first = flags_into word self.first } }
    {
        Fill {
            first: flags_into(word, self.first),
            ..self
        }
    }
}

impl Plan {
    /// Call this if the store at this index finds this word, in which a processor has set flags since it was shown. It makes the plan
    /// one for the word, so that no flag is lost, and is true then. The store has the word as `old`. Its flags are in `new`, or by a
    /// split in the fill, which is to be made again, and in the bits of the page's entry. It is false, and the plan stays, if anything
    /// else differs, if the word is no entry, or if there is no such store.
    pub fn again(&mut self, index: usize, word: u64) -> bool
        ensures done { IsTrue result → IsPlanAgain self.old index word self.new }
        ensures stays { IsFalse result → self.new ≡ self.old }
        ensures none { IsFalse result → (store : Store) → index < length self.old.stores.items
            → store ≡ slice_index_or self.old.stores.items index store
            → HasFlagsSet store.old word → ⊥ }
    {
        if index >= self.stores.len() {
            return false;
        }
        let store = self.stores.as_slice()[index];
        if !has_flags_set(store.old, word) {
            return false;
        }
        let new = self.new_again(word, store.new);
        self.bits = self.bits_again(index, word, store.new);
        self.fill = fill_again(word, self.fill);
        self.stores.as_mut_slice()[index] = Store {
            old: word,
            new,
            ..store
        };
        true
    }

    /// What a store writes that found this word.
    fn new_again(&self, word: u64, new: u64) -> u64
        ensures { result ≡ new_again self.now.fill self.now.unlinked.items word new }
    {
        if self.fill.is_some() || !self.unlinked.is_empty() {
            return new;
        }
        with_flags_of(word, new)
    }

    /// The bits of the page's entry, once the store at this index found this word.
    fn bits_again(&self, index: usize, word: u64, new: u64) -> u64
        ensures { result ≡ told_again self.now.reply
            (bits_again index self.now.unlinked.items word new self.now.bits) self.now.bits }
    {
        if let Reply::Answer(Answer::Done) = self.reply {
            return self.bits;
        }
        if index != 0 || (!self.unlinked.is_empty() && new != 0) {
            return self.bits;
        }
        flags_into(word, self.bits)
    }
}

/// A fill with the flags of a word, if there is one.
fn fill_again(word: u64, fill: Option<Fill>) -> Option<Fill>
    ensures { result ≡ fill_again word fill }
{
    match fill {
        Some(fill) => Some(fill.again(word)),
        None => None,
    }
}
