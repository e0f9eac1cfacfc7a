use super::runs::assert_text;
use draw_cli::{DrawFault, SketchFault, refuse};
use std::alloc::Global;
use std::process::Abort;
use wcp_io::IoFault;

/// The program refuses with this fault by the line of memory.
fn assert_memory(rt: &impl Abort, alloc: Global, fault: DrawFault) {
    let mut errors: Vec<u8> = Vec::new(alloc);
    assert_eq!(rt; refuse(&mut errors, &fault), 2);
    assert_text(rt, &errors, b"wcpdraw: memory\n");
}

#[test]
fn lines_of_memory(rt: HostRuntime) {
    assert_memory(&rt, rt.alloc(), DrawFault::Io(IoFault::Memory));
    assert_memory(&rt, rt.alloc(), DrawFault::Sketch(SketchFault::Memory));
}
