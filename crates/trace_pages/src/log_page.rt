//! The page of a log.
ghost use Rattle.std.specs.Prelude.{◌≡◌, ◌<◌, drop, length, map, IfOk};
ghost use Rattle.trace_pages.specs.Pages.{may_go_on, said_by, said_of_other, IsPageOf};

use crate::answered::Answered;
use crate::host_watch::{hosts_of, watches_of};
use crate::recorder::Recorder;
use draw_page::{LeftOut, Page, PageEvent, PageQuestion, PageReply};
use std::alloc::{AllocError, Global};
use trace_asking::{Behind, Question, Subject};
use trace_detect::{Listener, MomentMember};
use trace_words::Options;

/// The page of what was answered to these questions, and recorded, which opens on the first of them.
pub(crate) fn page_of<L: Listener>(
    alloc: Global,
    options: &Options<'_>,
    answered: &[Answered],
    behind: Behind,
    mut recorder: Recorder<'_, '_, L>,
) -> Result<Page, AllocError>
    requires { 0 < length answered.now }
    ensures { IfOk result (IsPageOf (map said_by answered.now) behind) }
{
    let mut events = far_events(alloc, answered, &mut recorder)?;
    let far = events.len();
    let before = recorder.dropped;
    for _ in 0..recorder.kept.len() {
        if let Some(event) = recorder.kept.pop_front() {
            events.push(event)?;
        }
    }
    let first = &answered[0];
    mark_holds(&mut events, far, first, &recorder);
    Ok(Page {
        program: String::from_str(alloc, "wcptrace")?,
        title: String::from_str(alloc, title_of(&options.files))?,
        question: name_among(alloc, recorder.questions, first.place, answered.len())?,
        asks: asked_by(recorder.questions, first.place),
        answer: first.answer,
        words: first.words.clone()?,
        hosts: hosts_of(alloc, &recorder.hosts, first.place)?,
        moment: places_of(alloc, &events, &first.members)?,
        over: first.over.clone()?,
        others: others_of(alloc, answered, &events, far, &recorder)?,
        events,
        left_out: LeftOut {
            before,
            more: may_go_on(behind),
        },
        messages: None,
    })
}

/// What is shown behind the first of these answers.
fn others_of<L: Listener>(
    alloc: Global,
    answered: &[Answered],
    events: &[PageEvent],
    far: usize,
    recorder: &Recorder<'_, '_, L>,
) -> Result<Vec<PageReply>, AllocError>
    ensures { IfOk result (λ others. map said_of_other others.items ≡ map said_by (drop 1 answered.now)) }
{
    let mut others = Vec::with_capacity(alloc, answered.len().saturating_sub(1))?;
    for place in 1..answered.len() {
        others.push(reply_of(alloc, &answered[place], events, far, recorder)?)?;
    }
    Ok(others)
}

/// What is shown of an answer that isn't the first.
fn reply_of<L: Listener>(
    alloc: Global,
    answered: &Answered,
    events: &[PageEvent],
    far: usize,
    recorder: &Recorder<'_, '_, L>,
) -> Result<PageReply, AllocError>
    ensures { IfOk result (λ reply. said_of_other reply ≡ said_by answered.now) }
{
    let question = answered.place;
    Ok(PageReply {
        question: name_of(alloc, recorder.questions, question)?,
        asks: asked_by(recorder.questions, question),
        answer: answered.answer,
        words: answered.words.clone()?,
        watches: watches_of(alloc, &recorder.hosts, question)?,
        holds: holds_of(alloc, events, far, answered, recorder)?,
        moment: places_of(alloc, events, &answered.members)?,
        over: answered.over.clone()?,
    })
}

/// The name of the question at this place, where several answers are shown.
fn name_among(
    alloc: Global,
    questions: &[Question],
    place: usize,
    answers: usize,
) -> Result<String, AllocError> {
    if answers < 2 {
        return Ok(String::new(alloc));
    }
    name_of(alloc, questions, place)
}

/// The name of the question at this place.
fn name_of(alloc: Global, questions: &[Question], place: usize) -> Result<String, AllocError> {
    match questions.get(place) {
        Some(question) => question.name.clone(),
        None => Ok(String::new(alloc)),
    }
}

/// Marks the events at which the condition of their host holds, of which so many are far.
fn mark_holds<L: Listener>(
    events: &mut [PageEvent],
    far: usize,
    answered: &Answered,
    recorder: &Recorder<'_, '_, L>,
) {
    for place in 0..events.len() {
        let event = &mut events[place];
        event.holds = holds_at(place, event.line, far, answered, recorder);
    }
}

/// The places of the events at which the condition of their host holds.
fn holds_of<L: Listener>(
    alloc: Global,
    events: &[PageEvent],
    far: usize,
    answered: &Answered,
    recorder: &Recorder<'_, '_, L>,
) -> Result<Vec<usize>, AllocError> {
    let mut holds = Vec::new(alloc);
    for (place, event) in events.iter().enumerate() {
        if holds_at(place, event.line, far, answered, recorder) {
            holds.push(place)?;
        }
    }
    Ok(holds)
}

/// Whether the condition of its host holds at the event of this line and place: of a far event, whether it is a member
/// of the moment.
fn holds_at<L: Listener>(
    place: usize,
    line: u64,
    far: usize,
    answered: &Answered,
    recorder: &Recorder<'_, '_, L>,
) -> bool {
    if place < far {
        return answered.members.iter().any(|member| member.line == line);
    }
    match recorder.holds.get(answered.place) {
        Some(kept) => kept.get(place - far).copied().unwrap_or(false),
        None => false,
    }
}

/// Whether the log goes on behind what was read of it, or may go on.
fn may_go_on(behind: Behind) -> bool
    ensures { result ≡ may_go_on behind }
{
    match behind {
        Behind::Ended => false,
        Behind::GoesOn | Behind::Stopped => true,
    }
}

/// The name of the first file that was read, and nothing for standard input.
fn title_of<'a>(files: &[&'a str]) -> &'a str {
    match files.first() {
        Some(name) if *name != "-" => *name,
        _ => "",
    }
}

/// What the question at this place asks, as a page says it.
fn asked_by(questions: &[Question], place: usize) -> PageQuestion {
    match questions.get(place).map(|question| &question.subject) {
        Some(Subject::AnyTwo(_)) => PageQuestion::AnyTwo,
        Some(Subject::Definitely(_)) => PageQuestion::Definitely,
        Some(Subject::Hosts(_)) | None => PageQuestion::AllHosts,
    }
}

/// The members of moments that come before the first event that is kept, each once. Of these the clock isn't known.
fn far_events<L: Listener>(
    alloc: Global,
    answered: &[Answered],
    recorder: &mut Recorder<'_, '_, L>,
) -> Result<Vec<PageEvent>, AllocError> {
    let first_line = match recorder.kept.front() {
        Some(event) => event.line,
        None => u64::MAX,
    };
    let mut lines = Vec::new(alloc);
    for one in answered {
        for member in &one.members {
            if member.line < first_line && !lines.contains(&member.line) {
                lines.push(member.line)?;
            }
        }
    }
    lines.sort()?;
    let mut events = Vec::with_capacity(alloc, lines.len())?;
    for line in &lines {
        if let Some(member) = member_at(answered, *line) {
            events.push(far_event(alloc, member, recorder)?)?;
        }
    }
    Ok(events)
}

/// The member of a moment at this line, if there is one.
fn member_at(answered: &[Answered], line: u64) -> Option<&MomentMember> {
    for one in answered {
        if let Some(member) = one.members.iter().find(|member| member.line == line) {
            return Some(member);
        }
    }
    None
}

/// A member of the moment of which the line and the text are known.
fn far_event<L: Listener>(
    alloc: Global,
    member: &MomentMember,
    recorder: &mut Recorder<'_, '_, L>,
) -> Result<PageEvent, AllocError> {
    Ok(PageEvent {
        host: recorder.number_of(member.host.as_str(), 0)?,
        line: member.line,
        text: member.text.clone()?,
        clock: Vec::new(alloc),
        holds: false,
        far: true,
    })
}

/// The places of the moment's members among the events, if there is a moment.
fn places_of(
    alloc: Global,
    events: &[PageEvent],
    moment: &[MomentMember],
) -> Result<Option<Vec<usize>>, AllocError> {
    if moment.is_empty() {
        return Ok(None);
    }
    let mut places = Vec::with_capacity(alloc, moment.len())?;
    for member in moment {
        if let Some(place) = place_of_line(events, member.line) {
            places.push(place)?;
        }
    }
    Ok(Some(places))
}

/// The place of the event of this line.
fn place_of_line(events: &[PageEvent], line: u64) -> Option<usize> {
    events.iter().position(|event| event.line == line)
}
