use crate::tests::answering::answer;
use std::alloc::Global;
use std::process::Abort;
use trace_moment::Lasting;

/// Each piece is an event, and its text has its host's number.
const ALICE: &[&str] = &[
    "alice {\"alice\":1}\nholds 1\n",
    "alice {\"alice\":2}\nfrees 2\n",
    "alice {\"alice\":3,\"bob\":2}\nholds 3\n",
    "alice {\"alice\":4,\"bob\":4}\nfrees 4\n",
];

const BOB: &[&str] = &[
    "bob {\"bob\":1,\"alice\":2}\nholds 1\n",
    "bob {\"bob\":2,\"alice\":2}\nfrees 2\n",
    "bob {\"bob\":3,\"alice\":2}\nholds 3\n",
    "bob {\"bob\":4,\"alice\":3}\nfrees 4\n",
];

/// The events of alice and bob, merged: a bit of 1 takes the next one of alice.
fn merged(rt: &impl Abort, alloc: Global, order: u32) -> String {
    let mut text = String::new(alloc);
    let mut alice = ALICE.iter();
    let mut bob = BOB.iter();
    for bit in 0..8u32 {
        let next = if order >> bit & 1 == 1 {
            alice.next()
        } else {
            bob.next()
        };
        if let Some(piece) = next {
            text.push_str(piece).expect(rt, "memory");
        }
    }
    for piece in alice {
        text.push_str(piece).expect(rt, "memory");
    }
    for piece in bob {
        text.push_str(piece).expect(rt, "memory");
    }
    text
}

/// The events of alice and bob, in this order, make the same moment as in each other.
fn assert_third(rt: &impl Abort, alloc: Global, order: u32) {
    let log = merged(rt, alloc, order);
    let found = answer(rt, alloc, Lasting::While, log.as_bytes());
    assert!(rt; found.contains("holds 3 bob"), "{order} {found}");
    assert!(rt; found.ends_with("holds 3"), "{order} {found}");
}

/// The lines of different hosts come in any order: the moment has the same events.
#[test]
fn lines_in_any_order(rt: HostRuntime) {
    for order in 0..256 {
        assert_third(&rt, rt.alloc(), order);
    }
}
