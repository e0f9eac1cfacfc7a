//! Names and texts that JSON escapes.
use super::tellers::{Step, assert_log, named, run_two};

#[test]
fn names_and_texts_are_escaped(rt: HostRuntime) {
    let quotes = [Step::Does("says \"no\\yes\"\r\n\tand \u{1f}")];
    let run = run_two(
        &rt,
        rt.alloc(),
        named(&rt, rt.alloc(), "\"a\\\n\u{0}\"", &quotes),
        named(&rt, rt.alloc(), "Zoë", &[Step::Does("naïve 🦀")]),
    );
    assert_log(&rt, rt.alloc(), &run.records, ESCAPED);
}

const ESCAPED: &str =
    r#"{"host":"\"a\\\n\u0000\"","clock":{"\"a\\\n\u0000\"":1,"Zoë":0},"event":"says \"no\\yes\"\r\n\tand \u001f"}
{"host":"Zoë","clock":{"\"a\\\n\u0000\"":0,"Zoë":1},"event":"naïve 🦀"}
"#;
