//! The answers to the questions of a file, each told as soon as it is known.
ghost use Rattle.std.specs.Prelude.{◌≡◌, ◌<◌, ◌≤◌, ◌==◌, [], true, length, min, IfErr, IfOk, OnErr, OnOk};
ghost use Rattle.std.specs.Prelude.{if◌then◌else◌, Bool, List, Ok, Option, ℕ};
ghost use Rattle.std.specs.Io.KnownBytes.{Appends, Keeps};
ghost use Rattle.wcp_io.specs.Edge.{edge_of};
ghost use Rattle.wcp_io.specs.Prefixes.{AppendsPrefix};
ghost use Rattle.trace_log.specs.declared.turn.Form.{Form as LogForm};
ghost use Rattle.trace_source.specs.Clocked.{LogInput, log_story};
ghost use Rattle.trace_asking.specs.declared.question.Question.{Question as AskedQuestion};
ghost use Rattle.trace_asking.specs.Asking.{HaveAll, answered_by};
ghost use Rattle.trace_asking.specs.OfBytes.{StopAll};
ghost use Rattle.trace_text.specs.declared.format.AnswerFormat.{AnswerFormat as OwnFormat};
ghost use Rattle.trace_text.specs.Waiting.{seen_waiting};
ghost use Rattle.trace_cli.specs.Questions.{AnswersFile, CanTell, HasToldSome, IsTelling, IsTellingSome};
ghost use Rattle.trace_cli.specs.Questions.{KeepsAnswered, TellsAll, answer_text, name_at, status_with, unknown_at};
ghost use Rattle.trace_words.specs.Fitting.{are_answers_alone, go_together};
ghost use Rattle.trace_cli.specs.Statuses.{refused, status_after, status_of as status_of_fault};

use crate::audience::Audience;
use crate::fault::TraceFault;
use crate::question_file::{form_for, questions_in};
use crate::shown_names::ShownFault;
use std::alloc::{AllocError, Global};
use std::io::{Read, Write};
use trace_asking::{Asking, Question, QuestionAnswer};
use trace_detect::{DetectFault, Listener};
use trace_source::{Clocked, Source};
use trace_text::{
    AnswerFormat, UNKNOWN, WaitingLines, reasoned_text, status_of, unknown_text, waiting_of,
};
use trace_words::Options;
use wcp_io::{IoFault, write_whole};

/// The status where no question has a moment.
const NONE: u8 = 1;

/// The status where a question has no answer.
const UNANSWERED: u8 = 2;

/// The answers to questions about one log, as far as they were told.
#[derive(Drop)]
struct Answering<'q, S> {
    alloc: Global,
    format: AnswerFormat,
    questions: &'q [Question],
    asking: Asking<'q, S>,
    status: u8,
    unanswered: Vec<Unanswered>,
}

/// Why the question at this place has no answer.
#[derive(Debug, Drop)]
struct Unanswered {
    place: usize,
    fault: DetectFault,
}

/// Answers the questions of the file that the options name, each as soon as its answer is known, and gives the status.
/// The hosts that log nothing are told at the end.
pub(crate) fn answer_file<Q: Read, I: Read, O: Write, E: Write, L: Audience>(
    alloc: Global,
    options: &Options<'_>,
    file: &mut Q,
    input: &mut I,
    output: &mut O,
    errors: &mut E,
    listener: &mut L,
) -> Result<u8, TraceFault>
    requires together { go_together options.now ≡ true }
    requires alone { are_answers_alone options.now ≡ true }
    ensures answers { AnswersFile options.now (Q.remaining file.old) (edge_of (I.remaining input.old)
        (I.remaining input.new) (O.contents output.old) (O.contents output.new)) (status_after result) }
    ensures status { IfOk result (λ status. status ≤ refused) }
    ensures quiet { IfOk result (λ status. status ≤ 1 → Keeps (E.contents errors.old) (E.contents errors.new)) }
    ensures silent { OnErr result (Keeps (E.contents errors.old) (E.contents errors.new)) }
{
    let questions = questions_in(alloc, options, file)?;
    let form = form_for(options.form, &questions);
    let source = Clocked::new(alloc, form, input)?;
    let mut answering = Answering::new(alloc, source, options.format, &questions)?;
    answering.tell_all(output, listener)?;
    answering.tell_missing(listener);
    Ok(answering.finish(errors))
}

impl<I: Read> Answering<'_, Clocked<'_, I>> {
    /// Reads on until each question is answered, and tells each answer as soon as it is known.
    fn tell_all<O: Write, L: Listener>(
        &mut self,
        output: &mut O,
        listener: &mut L,
    ) -> Result<(), TraceFault>
        requires can { CanTell (log_story I.remaining) self.old }
        requires few { self.old.status ≤ refused }
        ensures tells { (log : LogInput) (format : OwnFormat) (questions : List AskedQuestion)
            (before : Option (List ℕ)) →
            IsTellingSome (log_story I.remaining log) log.form format questions log.bytes before
            (O.contents output.old) self.old →
            TellsAll log.form format questions log.bytes before (O.contents output.new) result self.new }
        ensures few { self.new.status ≤ refused }
    {
        for _ in 0..u64::MAX {
            let next = match self.asking.next_answer(listener) {
                Ok(next) => next,
                Err(fault) => return self.tell_unknown(fault, output),
            };
            let Some(told) = next else {
                return Ok(());
            };
            self.tell(told, output)?;
        }
        Err(TraceFault::Io(IoFault::Read))
    }
}

impl<'q, S: Source + Drop> Answering<'q, S> {
    /// Nothing was read of what the source gives, and nothing told.
    fn new(
        alloc: Global,
        source: S,
        format: AnswerFormat,
        questions: &'q [Question],
    ) -> Result<Answering<'q, S>, AllocError>
        requires { HaveAll questions.now }
        ensures can { IfOk result (λ answering. (whole : S.Whole) → (S.story whole).gave [] source →
            CanTell S.story answering) }
        ensures telling { IfOk result (λ answering. (whole : S.Whole) (form : LogForm)
            (input output output_now : Option (List ℕ)) →
            (S.story whole).gave [] source → Keeps output output_now →
            IsTelling (S.story whole) form format questions.now input output output_now [] answering) }
        ensures few { IfOk result (λ answering. answering.status ≤ refused) }
    {
        Ok(Answering {
            alloc,
            format,
            questions,
            asking: Asking::new(alloc, source, questions)?,
            status: NONE,
            unanswered: Vec::new(alloc),
        })
    }

    /// Tells of each question that has no answer that it isn't known, where the fault is that lines wait at the end of
    /// the log; or gives the fault back.
    fn tell_unknown<O: Write>(
        &mut self,
        fault: DetectFault,
        output: &mut O,
    ) -> Result<(), TraceFault>
        ensures tells { (form : LogForm) (format : OwnFormat) (questions : List AskedQuestion)
            (known before : Option (List ℕ)) (answered : List Bool) →
            HasToldSome form format questions known before (O.contents output.old) answered self.old →
            StopAll form questions known answered fault →
            KeepsAnswered fault answered (answered_by self.old.asking) →
            TellsAll form format questions known before (O.contents output.new) result self.new }
        ensures few { self.new.status ≤ refused }
    {
        self.status = UNKNOWN;
        let Some(waiting) = waiting_of(self.alloc, &fault)? else {
            return Err(TraceFault::Detection(fault));
        };
        for place in 0..self.questions.len() {
            self.tell_waiting(place, &waiting, output)?;
        }
        Ok(())
    }

    /// Tells of the question at this place that its answer isn't known, unless it was answered.
    fn tell_waiting<O: Write>(
        &self,
        place: usize,
        waiting: &WaitingLines,
        output: &mut O,
    ) -> Result<(), TraceFault>
        requires place { place < length self.now.questions.now }
        ensures written { OnOk result (Appends (O.contents output.old) (O.contents output.new)
            (unknown_at self.now.format self.now.questions.now (answered_by self.now.asking) (seen_waiting waiting.now)
            place)) }
        ensures cut_off { IfErr result (λ fault. AppendsPrefix (O.contents output.old) (O.contents output.new)
            (unknown_at self.now.format self.now.questions.now (answered_by self.now.asking) (seen_waiting waiting.now)
            place)) }
    {
        if self.asking.is_answered(place) {
            return Ok(());
        }
        let name = self.questions[place].name.as_str();
        let text = unknown_text(self.alloc, self.format, Some(name), waiting)?;
        Ok(write_whole(output, text.as_slice())?)
    }

    /// Tells the answer to a question. That there is none is told at the end.
    fn tell<O: Write>(&mut self, told: QuestionAnswer, output: &mut O) -> Result<(), TraceFault>
        requires place { told.place < length self.old.questions.now }
        requires few { self.old.status ≤ refused }
        ensures asking { self.new.asking ≡ self.old.asking }
        ensures questions { self.new.questions ≡ self.old.questions }
        ensures format { self.new.format ≡ self.old.format }
        ensures status { OnOk result (self.new.status ≡ status_with told.answer self.old.status) }
        ensures few { self.new.status ≤ refused }
        ensures written { OnOk result (Appends (O.contents output.old) (O.contents output.new)
            (answer_text self.old.format (name_at self.old.questions.now told.place) told.answer)) }
        ensures cut_off { IfErr result (λ fault. AppendsPrefix (O.contents output.old) (O.contents output.new)
            (answer_text self.old.format (name_at self.old.questions.now told.place) told.answer)) }
    {
        let QuestionAnswer { place, answer } = told;
        let told = match answer {
            Ok(told) => told,
            Err(fault) => {
                return self.keep_for_the_end(place, fault);
            }
        };
        let name = self.questions[place].name.as_str();
        let text = reasoned_text(self.alloc, self.format, Some(name), &told)?;
        write_whole(output, text.as_slice())?;
        self.status = status_with(status_of(&told.answer), self.status);
        Ok(())
    }

    /// Keeps why the question at this place has no answer.
    fn keep_for_the_end(&mut self, place: usize, fault: DetectFault) -> Result<(), TraceFault>
        ensures asking { self.new.asking ≡ self.old.asking }
        ensures questions { self.new.questions ≡ self.old.questions }
        ensures format { self.new.format ≡ self.old.format }
        ensures status { self.new.status ≡ refused }
        ensures fault { IfErr result (λ fault. status_of_fault fault ≡ refused) }
    {
        self.status = UNANSWERED;
        match self.unanswered.push(Unanswered { place, fault }) {
            Ok(()) => Ok(()),
            Err(_) => Err(TraceFault::Io(IoFault::Memory)),
        }
    }

    /// Tells the listener if a host that is asked for is missing.
    fn tell_missing<L: Audience>(&self, listener: &mut L) {
        for one in &self.unanswered {
            if let DetectFault::NoHost(_) = &one.fault {
                listener.miss_host();
            }
        }
    }

    /// Says of each question without an answer why it has none, and gives the status.
    fn finish<E: Write>(&self, errors: &mut E) -> u8
        ensures status { result ≡ self.now.status }
        ensures quiet { self.now.status ≤ 1 → Keeps (E.contents errors.old) (E.contents errors.new) }
    {
        if self.status < UNANSWERED {
            return self.status;
        }
        for one in &self.unanswered {
            if let Some(question) = self.questions.get(one.place) {
                let fault = ShownFault(&one.fault);
                let _ = writeln!(errors, "wcptrace: {}: {fault}", question.name);
            }
        }
        self.status
    }
}

/// The status with one answer more.
fn status_with(now: u8, before: u8) -> u8
    ensures { result ≡ (if before == refused then refused else min now before) }
{
    if before == UNANSWERED {
        return UNANSWERED;
    }
    now.min(before)
}
