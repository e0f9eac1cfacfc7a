//! A run that the system gives no threads for. All address space of the process is taken but for a little, and each
//! thread needs some for its stack.

use super::runs::{is_given, refused, run};
use std::alloc::Global;
use std::process::Abort;
use test_streams::{Sinks, Trouble};

/// The largest blocks that are asked for have so many bytes, which is half of an address space.
const LARGEST: usize = 1 << 46;

/// So many sizes of blocks are taken, each half of the one before, down to one that is too small for a stack.
const SIZES: u32 = 31;

/// At most so many blocks of one size are taken.
const MOST_BLOCKS: usize = 50_000;

/// Room for the lists of a small run, and for no stack.
const FOR_LISTS: usize = 3 << 19;

/// A run of eighteen threads.
const SMALL: &[u8] = b"wcp 1\nprocs 16\np 0 true\n";

/// Takes blocks of so many bytes until one is refused.
fn take_blocks(alloc: Global, size: usize, blocks: &mut Vec<Vec<u8>>) {
    for _ in 0..MOST_BLOCKS {
        let Ok(block) = Vec::with_capacity(alloc, size) else {
            return;
        };
        let Ok(()) = blocks.push(block) else {
            return;
        };
    }
}

/// Takes all that the process can have but so many bytes, the largest blocks first.
fn take_all_but<R: AllocGlobal + Abort>(rt: &R, room: usize) -> Vec<Vec<u8>> {
    let kept = Vec::with_capacity(rt.alloc(), room).expect(rt, "memory");
    let mut blocks = Vec::with_capacity(rt.alloc(), 2 * MOST_BLOCKS).expect(rt, "memory");
    blocks.push(kept).expect(rt, "memory");
    let mut size = LARGEST;
    for _ in 0..SIZES {
        take_blocks(rt.alloc(), size, &mut blocks);
        size /= 2;
    }
    if let Some(kept) = blocks.first_mut() {
        *kept = Vec::new(rt.alloc());
    }
    blocks
}

#[test]
fn a_run_without_threads_has_its_line(rt: HostRuntime) {
    let mut input = SMALL;
    let mut sinks = Sinks::new(rt.alloc(), Trouble::No, Trouble::No);
    let blocks = take_all_but(&rt, FOR_LISTS);
    let status = run(&rt, "run", &mut input, &mut sinks);
    drop(blocks);
    is_given(
        &rt,
        status,
        &sinks,
        refused("wcpwatch: run spawn\n"),
        "no threads",
        0,
    );
}
