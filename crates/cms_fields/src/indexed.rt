//! Lists of which each item is reached by its index, and the iterator over any of them.
//!
//! A loop over any list so needs an invariant on what is left, and mostly no further proof.
ghost use Rattle.std.specs.Prelude.{◌≡◌, ◌↔◌, ℕ, List, [], length, slice_get, option_map, IsTrue};
ghost use Rattle.std.specs.Iterator.{YieldsFirstBy, item_count};
ghost use Rattle.cms_tlv.specs.Spans.{borrowed_spans};
ghost use Rattle.cms_tlv.specs.declared.span.Span.{Span};
ghost use Rattle.cms_fields.specs.Indexed.{left};

use cms_tlv::{BorrowedSpans, Span};

/// A list of items, in a fixed order.
pub trait Indexed: Drop {
    type Item;

    ghost Value: { Type 0 };

    ghost value: { Self.Item → Value };

    ghost values: { Self → List Value };

    /// How many items there are.
    fn len(&self) -> u64
        ensures { result ≡ length (values self.now) };

    /// Whether there are none.
    fn is_empty(&self) -> bool
        ensures { IsTrue result ↔ (values self.now ≡ []) }
    {
        self.len() == 0
    }

    /// The item with the index `i`; the first is 0.
    fn get(&self, i: u64) -> Option<Self::Item>
        ensures { option_map value result ≡ slice_get (values self.now) i };
}

/// The items of a list from the first to the last: the iterator of every list of this library.
#[derive(Drop)]
pub struct Items<L> {
    list: L,
    next: u64,
}

impl<L: Indexed> Items<L> {
    /// All items of `list`.
    pub fn new(list: L) -> Items<L>
        ensures { left L.values result ≡ L.values list }
    {
        Items { list, next: 0 }
    }
}

impl<L: Indexed> Iterator for Items<L> {
    type Item = L::Item;

    ghost next_gives = { YieldsFirstBy L.value (left L.values) };

    ghost remaining = { item_count (left L.values) };

    fn next(&mut self) -> Option<L::Item> {
        let i = self.next;
        if i >= self.list.len() {
            return None;
        }
        self.next = i + 1;
        self.list.get(i)
    }
}

impl<'a> Indexed for BorrowedSpans<'a> {
    type Item = Span;

    ghost Value = { Span };

    ghost value = { λ span. span };

    ghost values = { borrowed_spans };

    fn len(&self) -> u64 {
        BorrowedSpans::len(self)
    }

    fn get(&self, i: u64) -> Option<Span> {
        BorrowedSpans::get(self, i)
    }
}
