use crate::tests::reading::read_log;
use std::alloc::Global;
use std::process::Abort;
use trace_log::LogLayout;

const LOG: &[u8] = b"a {\"a\":1}\nx\nb {\"a\":1,\"b\":1}\ny\na {\"a\":3}\nz\n";

const READ: &str = "2 a a=1: x\n4 b a=1 b=1: y\n6 a a=3: z\n";

/// Whether the beginning of the log has no fault. It says what stands in it.
fn is_whole(rt: &impl Abort, alloc: Global, beginning: &[u8]) -> bool {
    let found = read_log(rt, alloc, LogLayout::Shiviz.whole(), beginning);
    assert!(rt; READ.starts_with(found.text.as_str()), "{beginning:?}");
    found.fault.is_none()
}

/// A log that is cut has a fault, or says what stands before the cut.
#[test]
fn a_log_cut_at_every_byte(rt: HostRuntime) {
    let mut whole: u32 = 0;
    for end in 0..LOG.len() {
        whole = whole.saturating_add(u32::from(is_whole(&rt, rt.alloc(), &LOG[..end])));
    }
    // nothing, each event, and each event with its last LF; the texts have one byte
    assert_eq!(rt; whole, 6);
}
