use std::alloc::{AllocError, Global};
use std::io::Read;
use std::test::Fail;
use test_streams::{Source, Trouble};
use trace_log::{Form, LogLayout};
use trace_messages::{MessageLog, Unsent};
use trace_rewrite::{Rewrite, RewritingReader};

const WAITS: &str = "{\"host\":\"ben\",\"event\":\"gets it\",\"recv\":\"m1\"}\n\
{\"host\":\"ben\",\"event\":\"gives it\",\"recv\":2,\"send\":[3,\"m4\"]}\n\
{\"host\":\"ada\",\"event\":\"asks\",\"send\":\"m1\"}\n\
{\"host\":\"carl\",\"event\":\"is lost\",\"recv\":\"none\"}\n\
{\"host\":\"ada\",\"event\":\"asks again\",\"send\":[\"2\"]}\n\
{\"host\":\"ada\",\"event\":\"works\",\"recv\":\"3\"}\n";

const WAITS_SAID: &str = "3 {\"host\":\"ada\",\"clock\":{\"ada\":1},\"event\":\"asks\"}\n\
1 {\"host\":\"ben\",\"clock\":{\"ben\":1,\"ada\":1},\"event\":\"gets it\"}\n\
5 {\"host\":\"ada\",\"clock\":{\"ada\":2},\"event\":\"asks again\"}\n\
2 {\"host\":\"ben\",\"clock\":{\"ben\":2,\"ada\":2},\"event\":\"gives it\"}\n\
6 {\"host\":\"ada\",\"clock\":{\"ben\":2,\"ada\":3},\"event\":\"works\"}\n";

/// What is said at the end of such a log: the fourth line waits.
const END_SAID: &str = "4!waits 1 none\n";

/// What is said there where lines that wait are a fault of the last line.
const STILL_WAITS: &str =
    "6!order lines that wait for a message that nobody sent: 1; line 4 waits for none\n";

/// What is said there where what nobody sent is assumed to be sent.
const ASSUMED_SAID: &str = "4 {\"host\":\"carl\",\"clock\":{\"carl\":1},\"event\":\"is lost\"}\n";

/// Each line waits for a message that a line sends which waits too, but for the third.
const ROUND: &str = "{\"host\":\"ben\",\"event\":\"gets it\",\"recv\":\"m1\",\"send\":\"m2\"}\n\
{\"host\":\"ada\",\"event\":\"gets it\",\"recv\":\"m2\",\"send\":\"m1\"}\n\
{\"host\":\"carl\",\"event\":\"gets it\",\"recv\":\"m3\"}\n\
{\"host\":\"ben\",\"event\":\"ends\"}\n";

const TWICE: &str = "{\"host\":\"ada\",\"event\":\"asks\",\"send\":7}\n\
{\"host\":\"ada\",\"event\":\"asks again\",\"send\":\"7\"}\n\
{\"host\":\"ada\",\"event\":\"waits\"}\n";

const TWICE_SAID: &str = "1 {\"host\":\"ada\",\"clock\":{\"ada\":1},\"event\":\"asks\"}\n\
2!twice \"7\" is sent a second time, first in line 1\n";

/// What a log is said as, read so many bytes at once.
fn said(alloc: Global, log: &str, most: usize, first: u64) -> Result<String, Fail> {
    said_with(alloc, Unsent::Told, log, most, first)
}

/// The same, where this becomes of lines that wait at the end.
fn said_with(
    alloc: Global,
    unsent: Unsent,
    log: &str,
    most: usize,
    first: u64,
) -> Result<String, Fail> {
    let form = Form {
        layout: LogLayout::Numbered,
        first,
        last: Some(100),
        check: false,
    };
    let input = Source::new(log.as_bytes(), most, Trouble::No);
    let mut reader = RewritingReader::new(alloc, input, MessageLog::new(alloc, unsent), form)?;
    let mut text = String::new(alloc);
    reader.read_to_string(&mut text)?;
    Ok(text)
}

#[test]
fn lines_wait_for_their_messages(rt: HostRuntime) -> Result<(), Fail> {
    for most in [1, 7, 4096] {
        let text = said(rt.alloc(), WAITS, most, 1)?;
        assert_eq!(rt; text.strip_suffix(END_SAID), Some(WAITS_SAID));
    }
    Ok(())
}

#[test]
fn what_nobody_sent_is_assumed_to_be_sent(rt: HostRuntime) -> Result<(), Fail> {
    for most in [1, 7, 4096] {
        let text = said_with(rt.alloc(), Unsent::Assumed, WAITS, most, 1)?;
        assert_eq!(rt; text.strip_suffix(ASSUMED_SAID), Some(WAITS_SAID));
    }
    Ok(())
}

#[test]
fn lines_that_wait_for_each_other_wait_still(rt: HostRuntime) -> Result<(), Fail> {
    let text = said_with(rt.alloc(), Unsent::Assumed, ROUND, 4096, 1)?;
    let carl = "3 {\"host\":\"carl\",\"clock\":{\"carl\":1},\"event\":\"gets it\"}\n";
    assert_eq!(rt; text.strip_prefix(carl), Some("1!waits 3 m1\n"));
    Ok(())
}

#[test]
fn the_end_names_the_first_line_that_waits(rt: HostRuntime) -> Result<(), Fail> {
    let text = said(rt.alloc(), ROUND, 4096, 1)?;
    assert_eq!(rt; text.as_str(), "3!waits 4 m3\n");
    let text = said(rt.alloc(), ROUND, 4096, 4)?;
    assert_eq!(rt;
        text.as_str(),
        "4 {\"host\":\"ben\",\"clock\":{\"ben\":1},\"event\":\"ends\"}\n"
    );
    let (round, _) = ROUND.split_once("{\"host\":\"carl\"").ok_or("no carl")?;
    let text = said(rt.alloc(), round, 4096, 1)?;
    assert_eq!(rt; text.as_str(), "1!waits 2 m1\n");
    Ok(())
}

#[test]
fn an_id_is_sent_once(rt: HostRuntime) -> Result<(), Fail> {
    let text = said(rt.alloc(), TWICE, 4096, 1)?;
    assert_eq!(rt; text.as_str(), TWICE_SAID);
    let text = said(rt.alloc(), TWICE, 4096, 3)?;
    assert_eq!(rt;
        text.as_str(),
        "3 {\"host\":\"ada\",\"clock\":{\"ada\":1},\"event\":\"waits\"}\n"
    );
    Ok(())
}

#[test]
fn a_line_that_says_no_event_has_a_fault(rt: HostRuntime) -> Result<(), Fail> {
    for (line, fault) in [
        ("[1]", "1!text no text \"host\"\n"),
        ("{\"host\":\"a\"}", "1!text no text \"event\"\n"),
        (
            "{\"host\":\"a\",\"event\":\"b\",\"recv\":-1}",
            "1!text \"recv\" is no id, and no list of ids: -1\n",
        ),
        (
            "{\"host\":\"a\",\"event\":\"b\",\"send\":[null]}",
            "1!text \"send\" is no id, and no list of ids: [null]\n",
        ),
        (
            "{\"host\":\"a\",\"event\":\"b\",\"host\":\"a\"}",
            "1!text a name stands twice\n",
        ),
        ("{", "1!text no JSON object\n"),
        (
            "\u{feff}{\"host\":\"a\",\"event\":\"b\"}",
            "1!text a byte order mark stands at the beginning of the line; a log has none\n",
        ),
        (
            "{\"host\":\"a\",\"event\":\"b\",\"send\":[\"m\",\"n\",\"m\"]}",
            "1!twice \"m\" is sent a second time, first in line 1\n",
        ),
    ] {
        let text = said(rt.alloc(), line, 4096, 1)?;
        assert_eq!(rt; text.as_str(), fault);
    }
    Ok(())
}

/// Adds what a line makes known. Where memory runs out, asking again does it.
fn say_again(
    log: &mut MessageLog,
    number: u64,
    line: &str,
    out: &mut Vec<u8>,
) -> Result<(), AllocError> {
    let before = out.len();
    if log.line(number, line.as_bytes(), out).is_ok() {
        return Ok(());
    }
    out.truncate(before);
    log.line(number, line.as_bytes(), out)
}

/// Adds what the end makes known. Where memory runs out, asking again does it.
fn end_again(log: &mut MessageLog, out: &mut Vec<u8>) -> Result<(), AllocError> {
    let before = out.len();
    if log.end(out).is_ok() {
        return Ok(());
    }
    out.truncate(before);
    log.end(out)
}

/// What is said of the lines of a log, and of its end, where each call is repeated that runs out of memory.
fn said_again(alloc: Global, unsent: Unsent) -> Result<(Vec<u8>, Vec<u8>), Fail> {
    let mut log = MessageLog::new(alloc, unsent);
    let mut out = Vec::new(alloc);
    let mut number = 0u64;
    for line in WAITS.lines() {
        number = number.saturating_add(1);
        say_again(&mut log, number, line, &mut out)?;
    }
    let mut end = Vec::new(alloc);
    end_again(&mut log, &mut end)?;
    Ok((out, end))
}

#[test]
fn a_log_is_said_again_where_memory_ran_out(rt: HostRuntime) -> Result<(), Fail> {
    let (out, end) = said_again(rt.alloc(), Unsent::Refused)?;
    assert_eq!(rt; out.as_slice(), WAITS_SAID.as_bytes());
    assert_eq!(rt; end.as_slice(), STILL_WAITS.as_bytes());
    Ok(())
}

#[test]
fn what_is_assumed_is_said_again_where_memory_ran_out(rt: HostRuntime) -> Result<(), Fail> {
    let (out, end) = said_again(rt.alloc(), Unsent::Assumed)?;
    assert_eq!(rt; out.as_slice(), WAITS_SAID.as_bytes());
    assert_eq!(rt; end.as_slice(), ASSUMED_SAID.as_bytes());
    Ok(())
}
