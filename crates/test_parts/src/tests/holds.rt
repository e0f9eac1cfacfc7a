use std::process::Abort;
use wcp_clock::{Clock, Item, Note};
use wcp_hold::Hold;

/// The first snapshot of one of two processes, before any event.
fn first_snapshot(from: u32) -> Item {
    Item {
        from,
        note: Note::Snap {
            number: 0,
            clock: Clock::new(2),
        },
    }
}

fn close_mark(from: u32) -> Item {
    Item {
        from,
        note: Note::Close { count: 1 },
    }
}

/// Puts an item where there is room for it; else it is handed back.
fn assert_pushed(rt: &impl Abort, hold: &mut Hold, item: Item, has_room: bool) {
    match hold.push(item) {
        Ok(()) => assert!(rt; has_room),
        Err(back) => {
            assert!(rt; !has_room);
            assert_eq!(rt; back, item);
        }
    }
}

/// Takes the oldest item, and compares how many items were held, and the item as it was seen and taken.
fn assert_oldest(rt: &impl Abort, hold: &mut Hold, len: usize, oldest: Option<Item>) {
    assert_eq!(rt; (hold.len(), hold.front()), (len, oldest));
    assert_eq!(rt; hold.pop(), oldest);
}

#[test]
fn a_hold_of_two_gives_the_oldest_item_first(rt: HostRuntime) {
    let mut hold = Hold::new(rt.alloc(), 2).expect(&rt, "memory");
    assert_oldest(&rt, &mut hold, 0, None);
    assert_pushed(&rt, &mut hold, first_snapshot(0), true);
    assert_pushed(&rt, &mut hold, first_snapshot(1), true);
    assert_pushed(&rt, &mut hold, close_mark(0), false);
    assert_oldest(&rt, &mut hold, 2, Some(first_snapshot(0)));
    assert_oldest(&rt, &mut hold, 1, Some(first_snapshot(1)));
    assert_oldest(&rt, &mut hold, 0, None);
}
