//! Several questions about one log, and what is answered to each.
ghost use Rattle.std.specs.Prelude.{◌≡◌, ◌<◌, [], length, slice_set, All, IfOk, List, Option, ℕ};
ghost use Rattle.trace_source.specs.Clocked.{LogInput, log_story};
ghost use Rattle.trace_asking.specs.declared.question.Question.{Question as AskedQuestion};
ghost use Rattle.trace_asking.specs.Asking.{HaveAll};
ghost use Rattle.trace_log.specs.declared.turn.Form.{Form as LogForm};
ghost use Rattle.trace_pages.specs.Replies.{CanReply, IsReplying, RepliesAll, reply_of};
ghost use Rattle.trace_pages.specs.declared.replying.Reply.TheVariants.{Open as NoReply};

use std::alloc::{AllocError, Global};
use std::io::Read;
use trace_asking::{Asking, Question};
use trace_detect::{DetectFault, Listener, ReasonedAnswer};
use trace_source::{Clocked, Source};

/// What is known of a question.
#[derive(Debug, Drop)]
pub(crate) enum Reply {
    /// It wasn't answered.
    Open,
    /// The answer, with its reasons where they are asked for.
    Told(ReasonedAnswer),
    /// Why it has no answer.
    Failed(DetectFault),
}

/// Several questions, and what is known of each.
#[derive(Drop)]
pub(crate) struct Replying<'q, S> {
    pub asking: Asking<'q, S>,
    pub replies: Vec<Reply>,
}

impl<'q, S: Source + Drop> Replying<'q, S> {
    /// Nothing was read of what the source gives, and nothing answered.
    pub fn new(
        alloc: Global,
        source: S,
        questions: &'q [Question],
    ) -> Result<Replying<'q, S>, AllocError>
        requires { HaveAll questions.now }
        ensures { IfOk result (λ replying. (whole : S.Whole) (form : LogForm)
            (input : Option (List ℕ)) → (S.story whole).gave [] source →
            IsReplying (S.story whole) form input questions.now replying) }
    {
        Ok(Replying {
            asking: Asking::new(alloc, source, questions)?,
            replies: open_replies(alloc, questions.len())?,
        })
    }
}

impl<I: Read> Replying<'_, Clocked<'_, I>> {
    /// Reads on until each question is answered, and keeps the answers.
    pub fn ask_all<L: Listener>(&mut self, listener: &mut L) -> Result<(), DetectFault>
        requires { CanReply (log_story I.remaining) self.old }
        ensures { (log : LogInput) (questions : List AskedQuestion) →
            IsReplying (log_story I.remaining log) log.form log.bytes questions self.old →
            RepliesAll (log_story I.remaining log) log.form log.bytes questions result self.new }
    {
        for _ in 0..u64::MAX {
            let Some(told) = self.asking.next_answer(listener)? else {
                return Ok(());
            };
            keep(&mut self.replies, told.place, reply_of(told.answer));
        }
        Err(DetectFault::Read)
    }
}

/// What is known of so many questions that weren't answered.
fn open_replies(alloc: Global, count: usize) -> Result<Vec<Reply>, AllocError>
    ensures many { IfOk result (λ replies. length replies.items ≡ count) }
    ensures open { IfOk result (λ replies. All (λ reply. reply ≡ NoReply) replies.items) }
{
    let mut replies = Vec::with_capacity(alloc, count)?;
    for _ in 0..count {
        replies.push(Reply::Open)?;
    }
    Ok(replies)
}

/// Keeps what is known of the question at this place.
fn keep(replies: &mut Vec<Reply>, place: usize, reply: Reply)
    requires { place < length replies.old.items }
    ensures { replies.new.items ≡ slice_set replies.old.items place reply }
{
    replies[place] = reply;
}

/// What is known of a question that was answered so.
fn reply_of(answer: Result<ReasonedAnswer, DetectFault>) -> Reply
    ensures { result ≡ reply_of answer }
{
    match answer {
        Ok(told) => Reply::Told(told),
        Err(fault) => Reply::Failed(fault),
    }
}
