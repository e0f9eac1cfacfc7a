//! A small page, of one question and of two, with texts that would end the script that the data stands in. The page is
//! asked for again where memory runs out: a test passes whichever of its allocations fails.

use draw_page::{
    ClockEntry, HostRule, HostWatch, LeftOut, MessageEnd, Page, PageAnswer, PageEvent, PageHost,
    PageMessage, PageQuestion, PageReply, page,
};
use std::alloc::{AllocError, Global};
use std::process::Abort;

/// A text that ends a script, begins a comment, and has what JSON and JavaScript treat apart.
const HOSTILE: &str = "</script><!--\"\\\u{0}\u{2028}";

/// The host of the event.
fn hosts(alloc: Global) -> Result<Vec<PageHost>, AllocError> {
    let watch = Some(HostWatch {
        rule: HostRule::At,
        condition: String::from_str(alloc, "<")?,
    });
    let name = String::from_str(alloc, "a&b")?;
    let mut hosts = Vec::new(alloc);
    hosts.push(PageHost { name, watch })?;
    Ok(hosts)
}

/// An event.
fn events(alloc: Global) -> Result<Vec<PageEvent>, AllocError> {
    let mut clock = Vec::new(alloc);
    clock.push(ClockEntry { host: 0, number: 7 })?;
    let mut events = Vec::new(alloc);
    events.push(PageEvent {
        host: 0,
        line: 2,
        text: String::from_str(alloc, HOSTILE)?,
        clock,
        holds: true,
        far: true,
    })?;
    Ok(events)
}

/// A message that isn't received.
fn messages(alloc: Global) -> Result<Vec<PageMessage>, AllocError> {
    let mut messages = Vec::new(alloc);
    let (from, to) = (MessageEnd::Event(0), MessageEnd::Host(0));
    messages.push(PageMessage { from, to })?;
    Ok(messages)
}

/// Another question, about the host and about one of which no event is shown.
fn reply(alloc: Global) -> Result<PageReply, AllocError> {
    let mut watches = Vec::new(alloc);
    watches.push(None)?;
    watches.push(Some(HostWatch {
        rule: HostRule::While,
        condition: String::from_str(alloc, "x")?,
    }))?;
    let mut holds = Vec::new(alloc);
    holds.push(0)?;
    Ok(PageReply {
        question: String::from_str(alloc, HOSTILE)?,
        asks: PageQuestion::AnyTwo,
        answer: PageAnswer::NoMoment,
        words: String::from_str(alloc, "none\n")?,
        watches,
        holds,
        moment: None,
        over: Vec::new(alloc),
    })
}

/// A page of one event, with which two runs begin, and of other questions.
fn small(alloc: Global, others: Vec<PageReply>) -> Result<Vec<u8>, AllocError> {
    let mut moment = Vec::new(alloc);
    moment.push(0)?;
    moment.push(0)?;
    let mut over = Vec::new(alloc);
    over.push(Some(4))?;
    over.push(None)?;
    let model = Page {
        program: String::from_str(alloc, "p")?,
        title: String::from_str(alloc, "")?,
        asks: PageQuestion::Definitely,
        answer: PageAnswer::Definite,
        words: String::from_str(alloc, "definitely\n")?,
        hosts: hosts(alloc)?,
        events: events(alloc)?,
        moment: Some(moment),
        over,
        left_out: LeftOut {
            before: 3,
            more: true,
        },
        messages: Some(messages(alloc)?),
        question: String::from_str(alloc, "first")?,
        others,
    };
    page(alloc, &model)
}

/// A page of one question.
fn of_one(alloc: Global) -> Result<Vec<u8>, AllocError> {
    small(alloc, Vec::new(alloc))
}

/// A page of two questions.
fn of_two(alloc: Global) -> Result<Vec<u8>, AllocError> {
    let mut others = Vec::new(alloc);
    others.push(reply(alloc)?)?;
    small(alloc, others)
}

/// The data of the page of one question, without its end.
const DATA: &str = "{\"program\":\"p\",\"title\":\"\",\"unit\":\"line\",\"asks\":\"definitely\",\
     \"answer\":\"definite\",\"words\":\"definitely\\n\",\
     \"hosts\":[{\"name\":\"a&b\",\"rule\":\"at\",\"condition\":\"\\u003c\"}],\
     \"events\":[{\"host\":0,\"line\":2,\"text\":\"\\u003c/script>\\u003c!--\\\"\\\\\\u0000\u{2028}\",\
     \"clock\":[[0,7]],\"holds\":true,\"far\":true}],\"moment\":[0,0],\"over\":[4,null],\
     \"left_out\":{\"before\":3,\"after\":0,\"more\":true},\
     \"messages\":[{\"from\":0,\"to\":null,\"to_host\":0}]";

/// What stands behind it in the data of the page of two questions.
const OTHERS: &str = ",\"question\":\"first\",\"others\":[{\
     \"question\":\"\\u003c/script>\\u003c!--\\\"\\\\\\u0000\u{2028}\",\
     \"asks\":\"two\",\"answer\":\"none\",\"words\":\"none\\n\",\
     \"watches\":[null,{\"rule\":\"while\",\"condition\":\"x\"}],\"holds\":[0],\"moment\":null,\"over\":[]}]";

/// The words of the page of two questions, without their end.
const WORDS: &str = "first: definitely\n&lt;/script>&lt;!--\"\\\u{0}\u{2028}: none\n";

/// What stands behind this text, where it does.
fn behind<'a>(text: &'a str, front: &str) -> &'a str {
    match text.split_once(front) {
        Some((_, rest)) => rest,
        None => "",
    }
}

/// What begins the data of a page.
const OPENING: &str = "<script type=\"application/json\" id=\"data\">";

#[test]
fn a_small_page(rt: HostRuntime) {
    let bytes = match of_one(rt.alloc()) {
        Err(AllocError) => of_one(rt.alloc()),
        made => made,
    };
    let bytes = bytes.expect(&rt, "a page");
    let text = std::str::from_utf8(&bytes).unwrap_or("");
    assert!(rt; text.starts_with("<!DOCTYPE html>") && text.ends_with("</html>\n"));
    let rest = behind(text, OPENING);
    assert!(rt; rest.starts_with(DATA));
    assert!(rt; behind(rest, DATA).starts_with("}</script>"));
    assert!(rt; text.contains(">definitely\n</pre>"));
}

#[test]
fn a_page_of_two_questions(rt: HostRuntime) {
    let bytes = match of_two(rt.alloc()) {
        Err(AllocError) => of_two(rt.alloc()),
        made => made,
    };
    let bytes = bytes.expect(&rt, "a page");
    let text = std::str::from_utf8(&bytes).unwrap_or("");
    let rest = behind(behind(text, OPENING), DATA);
    assert!(rt; rest.starts_with(OTHERS));
    assert!(rt; behind(rest, OTHERS).starts_with("}</script>"));
    assert!(rt; behind(text, WORDS).starts_with("</pre>"));
}
