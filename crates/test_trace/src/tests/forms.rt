use crate::tests::reading::read_log;
use std::alloc::Global;
use std::process::Abort;
use trace_log::{Form, LogLayout};

const LINES: &[u8] = b"{\"host\":\"alice\",\"clock\":{\"alice\":1},\"event\":\"asks\"}\n\
{\"level\":3,\"event\":\"grants\",\"clock\":{\"alice\":1,\"server\":2},\"host\":\"server\",\"more\":[{\"x\":null}]}\n\
 { \"host\" : \"alice\" , \"clock\" : { \"server\" : 2 , \"alice\" : 4 } , \"event\" : \"holds\" } \r\n";

const LINES_READ: &str =
    "1 alice alice=1: asks\n2 server alice=1 server=2: grants\n3 alice server=2 alice=4: holds\n";

const SHIVIZ: &[u8] = b"alice {\"alice\":1}\nasks\nserver {\"alice\":1, \"server\":2}\ngrants it \n\
      alice {\"server\":2,\"alice\":4}\nholds";

const SHIVIZ_READ: &str =
    "2 alice alice=1: asks\n4 server alice=1 server=2: grants it \n6 alice server=2 alice=4: holds\n";

const REVERSED: &[u8] =
    b"asks\nalice {\"alice\":1}\ngrants it \nserver {\"alice\":1, \"server\":2}\n\
      holds\nalice {\"server\":2,\"alice\":4}\n";

const REVERSED_READ: &str =
    "1 alice alice=1: asks\n3 server alice=1 server=2: grants it \n5 alice server=2 alice=4: holds\n";

const NAMES: &[u8] =
    b"{\"host\":\"\xc3\xa9t\xc3\xa9 1\",\"clock\":{\"\\u00e9t\\u00e9 1\":1,\"\\ud83d\\ude00\":0},\
      \"event\":\"a\\tb \\\"c\\\"\"}\n";

const NAMES_READ: &str = "1 \u{e9}t\u{e9} 1 \u{e9}t\u{e9} 1=1 \u{1f600}=0: a\tb \"c\"\n";

/// Reads a log without a fault, and compares its events.
fn assert_read(rt: &impl Abort, alloc: Global, form: Form, bytes: &[u8], read: &str) {
    let found = read_log(rt, alloc, form, bytes);
    assert_eq!(rt; found.text.as_str(), read);
    assert!(rt; found.fault.is_none());
}

#[test]
fn worked_logs_of_each_form(rt: HostRuntime) {
    for (form, bytes, read) in [
        (LogLayout::Lines.whole(), LINES, LINES_READ),
        (LogLayout::Shiviz.whole(), SHIVIZ, SHIVIZ_READ),
        (LogLayout::ShivizReversed.whole(), REVERSED, REVERSED_READ),
        (LogLayout::Lines.whole(), NAMES, NAMES_READ),
    ] {
        assert_read(&rt, rt.alloc(), form, bytes, read);
    }
}
