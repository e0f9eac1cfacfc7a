//! The words of the program: what they ask for.
use std::alloc::Global;
use std::process::Abort;
use trace_words::read_options;

/// What words ask for.
fn asked(rt: &impl Abort, alloc: Global, words: &[&str]) -> String {
    let request = read_options(alloc, words).expect(rt, "memory");
    format!(in alloc; "{request:?}").expect(rt, "memory")
}

#[test]
fn what_words_ask_for(rt: HostRuntime) {
    let each = [
        "wcptrace",
        "--at",
        "d=x",
        "--while",
        "b=",
        "--until",
        "c=y",
        "--from",
        "c=x",
        "--form",
        "lines",
        "--all",
        "--questions",
        "lease.toml",
        "--while=a=x=y",
        "--events",
        "7",
        "--page",
        "--check",
        "--to-line",
        "30",
        "a log",
    ];
    let found = asked(&rt, rt.alloc(), &each);
    assert_eq!(rt;
        found.as_str(),
        "Trace(Options { whiles: [\"b=\", \"a=x=y\"], froms: [\"c=x\"], untils: [\"c=y\"], \
         ats: [\"d=x\"], any_two: None, any_two_from: None, any_two_until: None, \
         questions: Some(\"lease.toml\"), question: None, \
         all: true, definitely: false, \
         form: Form { layout: Lines, first: 1, last: Some(30), check: true }, \
         spelled: SpellingWords { form: Some(\"lines\"), first: 1, last: Some(30), is_strict: false, \
         assumes_sent: false, parser: None, event_lines: None, skips: false, host: None, clock: None, \
         event: None }, format: Lines, explain: false, order: false, page: true, events: Some(\"7\"), svg: false, \
         columns: None, files: [\"a log\"] })"
    );
}

#[test]
fn an_option_without_its_value(rt: HostRuntime) {
    let found = asked(&rt, rt.alloc(), &["wcptrace", "--while", "--at"]);
    assert_eq!(rt;
        found.as_str(),
        "Unknown(\"a value is required for '--while <HOST=REGEX>' but none was supplied\")"
    );
}
