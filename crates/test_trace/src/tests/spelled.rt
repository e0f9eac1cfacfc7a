use crate::tests::reading::read_log;
use std::alloc::Global;
use std::io::Read;
use std::process::Abort;
use test_streams::{Source, Trouble};
use trace_log::{Form, LogLayout};
use trace_rewrite::RewritingReader;
use trace_spelling::{FieldNames, Spelling};

/// What a spelling makes of a log, and how many lines it passes over.
fn said(
    rt: &impl Abort,
    alloc: Global,
    spelling: &Spelling,
    form: Form,
    log: &[u8],
) -> (Vec<u8>, u64) {
    let mut text = Vec::new(alloc);
    let rewriter = spelling.rewriter(alloc).expect(rt, "memory");
    let input = Source::new(log, 3, Trouble::No);
    let mut reader = RewritingReader::new(alloc, input, rewriter, form).expect(rt, "memory");
    let _ = reader.read_to_end(&mut text).expect(rt, "read");
    (text, reader.rewriter().skipped())
}

/// Reads a log in a spelling, and compares its events, its fault and the lines that are passed over.
fn assert_said(
    rt: &impl Abort,
    alloc: Global,
    spelling: &Spelling,
    log: &[u8],
    read: &str,
    fault: Option<&str>,
    skipped: u64,
) {
    let (text, passed) = said(rt, alloc, spelling, LogLayout::Numbered.whole(), log);
    let found = read_log(rt, alloc, LogLayout::Numbered.whole(), &text);
    assert_eq!(rt; found.text.as_str(), read);
    let words = found
        .fault
        .map(|fault| format!(in alloc; "{fault}").expect(rt, "memory"));
    let words = words.as_ref().map(|words| words.as_str());
    assert!(rt; words == fault, "{words:?}");
    assert_eq!(rt; passed, skipped);
}

const READ: &str = "2 ann ann=1: asks\n4 ben ann=1 ben=1: says\n";

#[test]
fn parsers_of_several_lines(rt: HostRuntime) {
    let alloc = rt.alloc();
    let parser = r"(?<host>\S*) (?<clock>{.*})\n(?<event>.*)";
    let strict = Spelling::by_parser(alloc, parser, None, false).expect(&rt, "a parser");
    let log = b"ann {\"ann\":1}\nasks\nben {\"ann\":1,\"ben\":1}\nsays\n";
    assert_said(&rt, alloc, &strict, log, READ, None, 0);
    let broken = b"ann {\"ann\":1}\nasks\nben\nsays\n";
    let fault = "line 3: text: the expression has no match here";
    assert_said(
        &rt,
        alloc,
        &strict,
        broken,
        "2 ann ann=1: asks\n",
        Some(fault),
        0,
    );
    let cut = b"ann {\"ann\":1}\nasks\nben {\"ann\":1,\"ben\":1}";
    let fault = "line 3: text: the log ends before the other lines of this event";
    assert_said(
        &rt,
        alloc,
        &strict,
        cut,
        "2 ann ann=1: asks\n",
        Some(fault),
        0,
    );
    let skips = Spelling::by_parser(alloc, parser, None, true).expect(&rt, "a parser");
    let merged =
        b"(?<host>\\S*)\n\nann {\"ann\":1}\nasks\n=== Execution 2\n\nben {\"ann\":1,\"ben\":1}\nsays\nmore\n";
    let read = "4 ann ann=1: asks\n8 ben ann=1 ben=1: says\n";
    assert_said(&rt, alloc, &skips, merged, read, None, 5);
}

#[test]
fn parsers_of_one_line(rt: HostRuntime) {
    let alloc = rt.alloc();
    let parser = r"^(?<event>[^{]{2,}) (?<host>\w+) (?<clock>{[^{]*})$";
    let strict = Spelling::by_parser(alloc, parser, None, false).expect(&rt, "a parser");
    let log = b"asks ann {\"ann\":1}\nsays it ben {\"ben\":1}\n";
    let read = "1 ann ann=1: asks\n2 ben ben=1: says it\n";
    assert_said(&rt, alloc, &strict, log, read, None, 0);
    let clock = b"asks ann {\"ann\":-1}\n";
    let fault = "line 1: clock: \"ann\" is -1";
    assert_said(&rt, alloc, &strict, clock, "", Some(fault), 0);
    let other = b"asks ann {ann:1}\n";
    let fault = "line 1: clock: \"clock\" is \"{ann:1}\", not an object";
    assert_said(&rt, alloc, &strict, other, "", Some(fault), 0);
}

#[test]
fn members_of_json_lines(rt: HostRuntime) {
    let alloc = rt.alloc();
    let names = FieldNames {
        host: "host.name",
        clock: "labels.clock",
        event: "message",
    };
    let skips = Spelling::by_fields(alloc, names, true).expect(&rt, "memory");
    let log =
        b"=== begin\n{\"host\":{\"name\":\"ann\"},\"labels\":{\"clock\":\"{\\\"ann\\\":1}\"},\"message\":\"asks\"}\n\
        {\"level\":\"info\"}\n\
        {\"host.name\":\"ben\",\"labels.clock\":{\"ann\":1,\"ben\":1},\"message\":\"says\"}\n";
    assert_said(&rt, alloc, &skips, log, READ, None, 2);
    let strict = Spelling::by_fields(alloc, names, false).expect(&rt, "memory");
    let fault = "line 1: text: no JSON object";
    assert_said(&rt, alloc, &strict, log, "", Some(fault), 0);
}

#[test]
fn parsers_that_are_none(rt: HostRuntime) {
    let alloc = rt.alloc();
    for (parser, fault) in [
        (r"(?<host>\S+) (?<clock>.*)", "no group (?<event>...)"),
        (r"(?<clock>.*)(?<event>.*)", "no group (?<host>...)"),
    ] {
        let found = Spelling::by_parser(alloc, parser, None, false).err();
        let words = found.map(|fault| format!(in alloc; "{fault}").expect(&rt, "memory"));
        assert!(rt; words.as_ref().map(|words| words.as_str()) == Some(fault));
    }
    assert!(rt; Spelling::by_parser(alloc, "(?<host>", None, false).is_err());
}

#[test]
fn lines_from_the_first_to_the_last(rt: HostRuntime) {
    let alloc = rt.alloc();
    let parser = r"(?<host>\S+) (?<clock>\{.*\}) (?<event>.*)";
    let strict = Spelling::by_parser(alloc, parser, None, false).expect(&rt, "a parser");
    let log = b"banner\nann {\"ann\":1} asks\nben {\"ben\":1} says\nann {} ends\n";
    let form = Form {
        layout: LogLayout::Numbered,
        first: 2,
        last: Some(3),
        check: false,
    };
    let (text, _) = said(&rt, alloc, &strict, form, log);
    let found = read_log(&rt, alloc, LogLayout::Numbered.whole(), &text);
    assert_eq!(rt;
        found.text.as_str(),
        "2 ann ann=1: asks\n3 ben ben=1: says\n"
    );
    assert!(rt; found.fault.is_none());
}
