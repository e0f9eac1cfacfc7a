ghost use Rattle.std.specs.Prelude.{◌≡◌, ℕ, Bool, ◌<◌, None, List, length, slice_get, All, IfSome};
ghost use Rattle.std.specs.List.{last_or};

use wcp_clock::Item;

/// What a lane carries. A message has one item or more, all of one origin, which is the number of a
/// process. An item has a place among the items of its origin.
pub trait Origin: Drop {
    /// What the messages are made of.
    type Item;

    ghost items: { Self → List Self.Item };

    ghost origin: { Self.Item → ℕ };

    ghost place: { Self.Item → ℕ };

    ghost last: { Self.Item → Bool };

    /// The number of the process that its items come from.
    fn origin(&self) -> u32
        ensures { All (λ item. origin item ≡ result) (items self.now) };

    /// How many items of its origin stand before its first one.
    fn place(&self) -> u64
        ensures { IfSome (slice_get (items self.now) 0) (λ first. result ≡ place first) };

    /// How many items it has.
    fn count(&self) -> u64
        ensures some { 0 < result }
        ensures value { result ≡ length (items self.now) };

    /// Whether its last item is one that nothing of its origin may follow.
    fn last(&self) -> bool
        ensures { IfSome (last_or None (items self.now)) (λ end. result ≡ last end) };
}

impl Origin for Item {
    ghost use Rattle.std.specs.Prelude.{[], ◌∷◌};
    ghost use Rattle.wcp_clock.specs.Notes.{place_of, is_last};

    type Item = Item;

    ghost items = { λ item. item ∷ [] };

    ghost origin = { λ item. item.from };

    ghost place = { λ item. place_of item.note };

    ghost last = { λ item. is_last item.note };

    fn origin(&self) -> u32 {
        self.from
    }

    fn place(&self) -> u64 {
        u64::from(self.note.place())
    }

    fn count(&self) -> u64 {
        1
    }

    fn last(&self) -> bool {
        self.note.is_last()
    }
}
