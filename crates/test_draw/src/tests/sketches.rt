//! Each call is asked again where memory runs out: a test passes whichever of its allocations fails.

use super::runs::FOUND;
use draw_cli::{DrawForm, Picture, SketchFault, sketch};
use std::alloc::Global;
use std::process::Abort;
use wcp_script::{FaultKind, ScriptFault};

/// The picture of a text of processes with these names.
fn picture(alloc: Global, names: Option<&str>, text: &str) -> Result<Picture, SketchFault> {
    match sketch(alloc, DrawForm::Svg(80), names, text.as_bytes()) {
        Err(SketchFault::Memory) => sketch(alloc, DrawForm::Svg(80), names, text.as_bytes()),
        answer => answer,
    }
}

/// Whether a text stands in a picture.
fn holds_text(picture: &Picture, text: &str) -> bool {
    match std::str::from_utf8(&picture.bytes) {
        Ok(bytes) => bytes.contains(text),
        Err(_) => false,
    }
}

#[test]
fn a_cut_is_drawn(rt: HostRuntime) {
    let picture = picture(rt.alloc(), Some("a&b,<c"), FOUND).expect(&rt, "a picture");
    assert!(rt; holds_text(&picture, ">&lt;c</text>"));
    assert!(rt; picture.found);
}

/// Process 0 is true before its message alone, and process 1 behind it.
const NONE: &str = "wcp 1\nprocs 2\np 0 true\np 0 send 1\np 1 recv 0\np 1 true\n";

#[test]
fn a_workload_with_no_cut_is_drawn(rt: HostRuntime) {
    let picture = picture(rt.alloc(), None, NONE).expect(&rt, "a picture");
    assert!(rt; holds_text(&picture, ">process 1</text>"));
    assert!(rt; !picture.found);
}

/// Compares why a text of processes with these names has no picture.
fn assert_not_drawn(rt: &impl Abort, alloc: Global, names: &str, text: &str, why: SketchFault) {
    assert_eq!(rt; picture(alloc, Some(names), text).err(), Some(why));
}

#[test]
fn other_names_than_processes(rt: HostRuntime) {
    assert_not_drawn(&rt, rt.alloc(), "a,b,c", FOUND, SketchFault::Names);
}

#[test]
fn a_text_with_a_fault(rt: HostRuntime) {
    let fault = ScriptFault {
        line: 4,
        kind: FaultKind::Process,
    };
    let text = "wcp 1\nprocs 2\np 0 true\np 0 send 2\n";
    assert_not_drawn(&rt, rt.alloc(), "a", text, SketchFault::Script(fault));
}
