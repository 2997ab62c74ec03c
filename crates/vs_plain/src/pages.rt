//! The pages of a space, one after another.
ghost use Rattle.std.specs.Prelude.{◌≡◌, map, length, Some, IfSome};
ghost use Rattle.std.specs.Iterator.{YieldsFirst, item_count, UpTo};
ghost use Rattle.std.specs.Iterator.SizeHint.{IsWithinCount};
ghost use Rattle.vs_plain.specs.inside.Listed.{page_of};

use crate::mapping::Mapping;
use std::collections::btree_map::Iter;
use std::marker::Model;
use vs_types::Page;

/// The pages of a space by rising base. It allocates no memory. Contracts see the list of those that are left.
#[derive(Drop)]
pub struct Pages<'a> {
    entries: Iter<'a, u64, Mapping>,
}

impl<'a> Model for Pages<'a> {
    ghost use Rattle.std.specs.Prelude.{List, map};
    ghost use Rattle.std.specs.Coded.{coded_list};
    ghost use Rattle.vs_types.specs.contracts.addresses.page.Page as page_contract;
    ghost use Rattle.vs_types.specs.declared.addresses.page.Page.{Page};
    ghost use Rattle.vs_plain.specs.inside.Listed.{page_of};

    ghost Value = { List Page };

    ghost coded = { coded_list page_contract.the_row.coded };

    ghost view = { λ p. map page_of p.entries };
}

impl<'a> Pages<'a> {
    pub(crate) fn new(entries: Iter<'a, u64, Mapping>) -> Pages<'a>
        ensures { result ≡ map page_of entries.entry }
    {
        Pages { entries }
    }
}

impl<'a> Iterator for Pages<'a> {
    type Item = Page;

    ghost next_gives = { YieldsFirst (λ left. left) };

    ghost remaining = { item_count (λ left. left) };

    #[inline]
    fn next(&mut self) -> Option<Page> {
        let (base, mapping) = self.entries.next()?;
        Some(mapping.page_from(*base))
    }

    fn size_hint(&self) -> (usize, Option<usize>)
        ensures lower { IsWithinCount result.0 (item_count (λ left. left) self.now) }
        ensures upper { IfSome result.1 (UpTo (item_count (λ left. left) self.now)) }
        ensures exact { result ≡ (length self.now, Some (length self.now)) }
    {
        let left = self.entries.len();
        (left, Some(left))
    }
}
