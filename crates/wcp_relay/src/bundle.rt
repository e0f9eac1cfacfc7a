ghost use Rattle.std.specs.Prelude.{◌≡◌, ◌↔◌, ◌+◌, ◌<◌, List, [], ◌∷◌, ◌++◌, length, slice_get};
ghost use Rattle.std.specs.Prelude.{IsTrue, IsOk, IfErr, OnOk};
ghost use Rattle.wcp_relay.specs.Bundles.{Continues, IsBundle, MayJoin};

use std::alloc::AllocError;
use std::marker::Model;
use wcp_clock::{Item, Note};
use wcp_lane::Origin;

/// The most items of a bundle.
pub const MAX_BUNDLE: usize = 8;

/// What fills the places of a bundle behind its last item.
const FILLER: Item = Item {
    from: 0,
    note: Note::Close { count: 0 },
};

/// Items of one process, each the next one after the one before it, which go over a lane together. There
/// are 1 to 8, in memory of its own size.
///
/// A contract sees it as the list of these items.
#[derive(Copy, Debug)]
pub struct Bundle {
    count: usize,
    items: [Item; MAX_BUNDLE],
}

impl Model for Bundle {
    ghost use Rattle.std.specs.Prelude.{◌≡◌, ℕ, ◌-◌, ◌≤◌, List, ◌++◌, length, take, drop, replicate};
    ghost use Rattle.wcp_clock.specs.declared.note.Item.{Item};
    ghost use Rattle.wcp_relay.specs.Bundles.{IsBundle, filler, most_bundle};

    ghost Value = { List Item };

    ghost view = { λ b. take b.count b.items };

    ghost invariant = { λ b. IsBundle (take b.count b.items) × (b.count ≤ most_bundle)
        × (length b.items ≡ most_bundle) × (drop b.count b.items ≡ replicate (most_bundle - b.count) filler) };

    ghost inverse = { λ list. record {
      count = length list;
      items = list ++ replicate (most_bundle - length list) filler;
    } };

    ghost use Rattle.std.proofs.Common.{arith};
    ghost use Rattle.std.proofs.lemmas.List.{length-take-le};
    ghost use Rattle.wcp_clock.specs.Padding.{padded_prefix};

    ghost inverse_ok = { λ b h i. record {
      count = length-take-le b.count b.items (Prim.omega (arith, h.1, h.2)) i;
      items = padded_prefix filler b.count most_bundle b.items h.1 h.2 h.3 i;
    } };
}

impl Clone for Bundle {
    fn clone(&self) -> Result<Self, AllocError> {
        Ok(*self)
    }
}

impl Bundle {
    /// The bundle of one item.
    pub fn one(item: Item) -> Bundle
        ensures { result ≡ item ∷ [] }
    {
        let mut items = [FILLER; MAX_BUNDLE];
        items[0] = item;
        Bundle { count: 1, items }
    }

    /// Adds an item, or hands it back where it may not join: where there are 8 items, where it is of
    /// another process or not in the next place, and behind a last note.
    pub fn add(&mut self, item: Item) -> Result<(), Item>
        ensures joins { IsOk result ↔ MayJoin self.old item }
        ensures ok { OnOk result (self.new ≡ self.old ++ item ∷ []) }
        ensures err { IfErr result (λ back. (back ≡ item) × (self.new ≡ self.old)) }
    {
        let end = self.items[self.count - 1];
        if self.count == MAX_BUNDLE {
            return Err(item);
        }
        if !continues(&end, &item) {
            return Err(item);
        }
        self.items[self.count] = item;
        self.count += 1;
        Ok(())
    }

    /// The item at place `i` of the bundle, the first one at 0.
    pub fn get(&self, i: usize) -> Option<Item>
        ensures { result ≡ slice_get self.now i }
    {
        if i < self.count {
            Some(self.items[i])
        } else {
            None
        }
    }

    /// Its items, in order.
    pub fn items(&self) -> &[Item]
        ensures value { result.now ≡ self.now }
        ensures bundle { IsBundle self.now }
    {
        &self.items[..self.count]
    }

    /// Its last item.
    pub fn last_item(&self) -> Item
        ensures { (before : List Item) × (self.now ≡ before ++ result ∷ []) }
    {
        self.items[self.count - 1]
    }

    /// How many items there are.
    pub fn len(&self) -> usize
        ensures count { result ≡ length self.now }
        ensures bundle { IsBundle self.now }
    {
        self.count
    }
}

/// Whether an item is the next one of its process after another.
fn continues(before: &Item, item: &Item) -> bool
    ensures { IsTrue result ↔ Continues before.now item.now }
{
    if before.last() || item.from != before.from {
        return false;
    }
    u128::from(item.place()) == u128::from(before.place()) + 1
}

impl Origin for Bundle {
    ghost use Rattle.wcp_clock.specs.Notes.{place_of, is_last};

    type Item = Item;

    ghost items = { λ bundle. bundle };

    ghost origin = { λ item. item.from };

    ghost place = { λ item. place_of item.note };

    ghost last = { λ item. is_last item.note };

    fn origin(&self) -> u32 {
        let first = self.items[0];
        first.from
    }

    fn place(&self) -> u64 {
        let first = self.items[0];
        first.place()
    }

    fn count(&self) -> u64 {
        self.count as u64
    }

    fn last(&self) -> bool {
        let end = self.items[self.count - 1];
        end.last()
    }
}
