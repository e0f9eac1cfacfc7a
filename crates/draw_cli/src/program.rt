//! The program, over any reader and writers.
ghost use Rattle.std.specs.Prelude.{◌≡◌, ◌⊎◌, ◌≤◌, is_some, IfOk, IfErr};
ghost use Rattle.std.specs.Io.KnownBytes.{Keeps};
ghost use Rattle.draw_cli.specs.Answers.{AnswersPicture, AnswersRequest, status_of};
ghost use Rattle.draw_cli.specs.Answers.{seen_list, IsWhyNoAnswer, IsWhyNoPicture, IsWhyRefused};
ghost use Rattle.wcp_io.specs.Edge.{edge_of};
ghost use Rattle.draw_cli.specs.Edge.{DoesAsked, closed_pipe, status_after, status_of_fault};
ghost use Rattle.draw_cli.specs.declared.words.DrawRequest.{DrawRequest};

use crate::fault::DrawFault;
use crate::help::VERSION;
use crate::sketching::sketch;
use crate::words::{DrawRequest, PictureWords, read_words};
use std::alloc::Global;
use std::convert::AsStr;
use std::io::{Read, Write};
use wcp_io::{IoFault, read_text, write_whole};

/// The status with a picture that shows a cut, and after help and the version.
const FOUND: u8 = 0;

/// The status with a picture of a workload that has no cut.
const NONE: u8 = 1;

/// The status where there is no answer.
const REFUSED: u8 = 2;

/// The status where nobody reads the output any more: 128 and the number of SIGPIPE.
const CLOSED_PIPE: u8 = 141;

/// What the program prints, and its exit status.
#[derive(Debug, Drop)]
struct DrawAnswer {
    text: Vec<u8>,
    status: u8,
}

/// Runs the program on its words, of which the first is its name, and gives its exit status.
///
/// The input is read to its end. The answer is written in one piece, when all of it is known. Where there is none,
/// `errors` gets one line that says why; it gets none where nobody reads the output any more.
pub fn drive<S: AsStr, I: Read, O: Write, E: Write>(
    alloc: Global,
    words: &[S],
    input: &mut I,
    output: &mut O,
    errors: &mut E,
) -> u8
    ensures status { (result ≤ 2) ⊎ (result ≡ closed_pipe) }
    ensures quiet { result ≤ 1 → Keeps (E.contents errors.old) (E.contents errors.new) }
    ensures silent { result ≡ closed_pipe → Keeps (E.contents errors.old) (E.contents errors.new) }
    ensures does { (request : DrawRequest) × DoesAsked request (edge_of (I.remaining input.old) (I.remaining input.new)
        (O.contents output.old) (O.contents output.new)) result }
{
    let Ok(request) = read_words(alloc, words) else {
        return refuse(errors, &DrawFault::Io(IoFault::Memory));
    };
    match obey(alloc, request, input, output) {
        Ok(status) => status,
        Err(fault) => refuse(errors, &fault),
    }
}

/// Writes the line that says why there is no answer, unless nobody reads the output any more, and gives the status. It
/// is that status also where the line can't be written.
pub fn refuse<E: Write>(errors: &mut E, fault: &DrawFault) -> u8
    ensures status { result ≡ status_of_fault fault.now }
    ensures silent { result ≡ closed_pipe → Keeps (E.contents errors.old) (E.contents errors.new) }
{
    if let DrawFault::Io(IoFault::Closed) = fault {
        return CLOSED_PIPE;
    }
    let _ = writeln!(errors, "wcpdraw: {fault}");
    REFUSED
}

/// Does what a request asks for, and gives the status.
fn obey<I: Read, O: Write>(
    alloc: Global,
    request: DrawRequest<'_>,
    input: &mut I,
    output: &mut O,
) -> Result<u8, DrawFault>
    ensures status { IfOk result (λ status. status ≤ 1) }
    ensures does { DoesAsked request.entry (edge_of (I.remaining input.old) (I.remaining input.new)
        (O.contents output.old) (O.contents output.new)) (status_after result) }
    ensures fault { IfErr result (IsWhyRefused request.entry (I.remaining input.old) (I.remaining input.new)) }
{
    let answer = answer_to(alloc, request, input)?;
    write_whole(output, answer.text.as_slice())?;
    Ok(answer.status)
}

/// The answer to a request.
fn answer_to<I: Read>(
    alloc: Global,
    request: DrawRequest<'_>,
    input: &mut I,
) -> Result<DrawAnswer, DrawFault>
    ensures answer { IfOk result (λ answer. AnswersRequest request.entry (I.remaining input.old) (I.remaining input.new)
        answer.text.items answer.status) }
    ensures status { IfOk result (λ answer. answer.status ≤ 1) }
    ensures fault { IfErr result (IsWhyNoAnswer request.entry (I.remaining input.old) (I.remaining input.new)) }
{
    match request {
        DrawRequest::Picture(picture) => picture_of_input(alloc, picture, input),
        DrawRequest::Help(text) => Ok(DrawAnswer {
            text: text.into_bytes(),
            status: FOUND,
        }),
        DrawRequest::Version => Ok(DrawAnswer {
            text: String::from_str(alloc, VERSION)?.into_bytes(),
            status: FOUND,
        }),
        DrawRequest::Unknown(why) => Err(DrawFault::Usage { why }),
    }
}

/// The picture of the workload that the input spells, or the page, as the words say.
fn picture_of_input<I: Read>(
    alloc: Global,
    words: PictureWords<'_>,
    input: &mut I,
) -> Result<DrawAnswer, DrawFault>
    ensures answer { IfOk result (λ answer. AnswersPicture (is_some words.entry.page) (seen_list words.entry.names)
        (I.remaining input.old) (I.remaining input.new) answer.text.items answer.status) }
    ensures status { IfOk result (λ answer. answer.status ≤ 1) }
    ensures fault { IfErr result (IsWhyNoPicture (seen_list words.entry.names) (I.remaining input.old)
        (I.remaining input.new)) }
{
    let text = read_text(alloc, input)?;
    let picture = sketch(alloc, words.form(), words.names, &text)?;
    Ok(DrawAnswer {
        text: picture.bytes,
        status: status_of(picture.found),
    })
}

/// The status with a picture, which shows a cut or none.
fn status_of(found: bool) -> u8
    ensures value { result ≡ status_of found }
    ensures small { result ≤ 1 }
{
    if found { FOUND } else { NONE }
}
