//! Files of questions: what they ask. A call is asked again where memory runs out: a test passes whichever of its
//! allocations fails.
ghost use Rattle.std.specs.Prelude.{◌≡◌, ◌∷◌, [], None, Some, codes, option_and_then};
ghost use Rattle.toml.specs.Parse.{parse_document};
ghost use Rattle.trace_condition.specs.declared.rule.Rule.TheVariants.{FromUntil};
ghost use Rattle.trace_questions.specs.Wordings.{of_any_two, of_hosts, questions_in};

use std::alloc::{AllocError, Global};
use std::fmt::Write;
use std::process::Abort;
use trace_asking::{Question, Subject};
use trace_condition::{Condition, Rule};
use trace_questions::{QuestionsFault, read_questions};

/// Three questions, one of which has words of three keys, and one is about any two hosts.
const ASKED: &str = "\
# who holds the lease, and who leads
[[question]]
name = \"lease\"
while = [\"ada=holds|writes\", \"ben=holds|writes\"]

[[question]]
name = \"leaders\"
from = [\"n1=leader\", 'n2=^leader\\d$']
until = [\"n2=steps\", \"n1=steps=down\"]
at = \"n3=\"

[[question]]
name = \"any\"
any-two = '^n\\d=leader=yes'
";

/// What is asked by `ASKED`.
const ASKS: &str = "\
lease: ada while holds|writes; ben while holds|writes;
leaders: n1 from leader until steps=down; n2 from ^leader\\d$ until steps; n3 at ;
any: any two of ^n\\d ^n\\d while leader=yes;
";

/// The questions that a text asks.
fn questions(alloc: Global, text: &[u8]) -> Result<Vec<Question>, QuestionsFault> {
    match read_questions(alloc, text, false) {
        Err(QuestionsFault::Memory) => read_questions(alloc, text, false),
        read => read,
    }
}

/// A condition as text.
fn push_condition(told: &mut String, condition: &Condition) -> Result<(), AllocError> {
    write!(told, " {} ", condition.host)?;
    match &condition.rule {
        Rule::While(held) => write!(told, "while {};", held.as_str()),
        Rule::FromUntil(from, until) => write!(
            told,
            "from {} until {};",
            from.as_str(),
            until.as_str()
        ),
        Rule::At(held) => write!(told, "at {};", held.as_str()),
    }
}

/// Conditions as text.
fn push_conditions(told: &mut String, conditions: &[Condition]) -> Result<(), AllocError> {
    for condition in conditions {
        push_condition(told, condition)?;
    }
    Ok(())
}

/// Each question in a line, or the fault.
fn lines_of(
    alloc: Global,
    read: &Result<Vec<Question>, QuestionsFault>,
) -> Result<String, AllocError> {
    let mut told = String::new(alloc);
    let questions = match read {
        Ok(questions) => questions,
        Err(fault) => {
            write!(told, "{fault}")?;
            return Ok(told);
        }
    };
    for question in questions {
        write!(told, "{}:", question.name)?;
        match &question.subject {
            Subject::Hosts(conditions) => push_conditions(&mut told, conditions)?,
            Subject::Definitely(conditions) => {
                told.push_str(" definitely")?;
                push_conditions(&mut told, conditions)?;
            }
            Subject::AnyTwo(condition) => {
                write!(told, " any two of {}", condition.hosts.as_str())?;
                push_condition(&mut told, &condition.condition)?;
            }
        }
        told.push_str("\n")?;
    }
    Ok(told)
}

/// What a text is read as.
fn told(rt: &impl Abort, alloc: Global, text: &[u8]) -> String {
    let read = questions(alloc, text);
    match lines_of(alloc, &read) {
        Ok(told) => told,
        Err(_) => lines_of(alloc, &read).expect(rt, "memory"),
    }
}

/// Compares what each text is read as: its questions, or its fault.
pub(super) fn assert_told(rt: &impl Abort, alloc: Global, texts: &[(&str, &str)]) {
    for (text, expected) in texts {
        let told = told(rt, alloc, text.as_bytes());
        assert_eq!(rt; told.as_str(), *expected);
    }
}

#[test]
fn a_file_asks_questions(rt: HostRuntime) {
    let other_forms =
        "question = [{ while = 'a=b', name = 'ä \"1\"' }, { name = '2', at = ['a=b', 'c=d'] }]";
    assert_told(
        &rt,
        rt.alloc(),
        &[
            (ASKED, ASKS),
            (other_forms, "ä \"1\": a while b;\n2: a at b; c at d;\n"),
        ],
    );
}

#[test]
fn a_text_is_utf8(rt: HostRuntime) {
    let told_first = told(&rt, rt.alloc(), b"\xff");
    assert_eq!(rt; told_first.as_str(), "line 1: the text isn't UTF-8");
    let told_third = told(
        &rt,
        rt.alloc(),
        b"[[question]]\nname = 'a'\nat = 'b\xc3=c'\n",
    );
    assert_eq!(rt; told_third.as_str(), "line 3: the text isn't UTF-8");
}

/// What the definitions say of a text of two questions.
fn two_questions()
    ensures { option_and_then questions_in (parse_document (codes
        "[[question]]\nname = 'l'\nwhile = ['ada=h', 'ben=h']\n[[question]]\nname = 'q'\nfrom = 'n=a'\nuntil = 'n=b'\n"))
        ≡ Some (record {
          name = codes "l";
          asks = of_hosts (record {
            whiles = codes "ada=h" ∷ codes "ben=h" ∷ [];
            froms = [];
            untils = [];
            ats = [];
          });
        } ∷ record {
          name = codes "q";
          asks = of_hosts (record { whiles = []; froms = codes "n=a" ∷ []; untils = codes "n=b" ∷ []; ats = [] });
        } ∷ []) }
{}

/// What they say of a text of a question about any two hosts.
fn a_question_of_two()
    ensures { option_and_then questions_in (parse_document (codes
        "[[question]]\nname = 'a'\nany-two-from = '^n=b'\nany-two-until = 'c'\n"))
        ≡ Some (record { name = codes "a"; asks = of_any_two (FromUntil (codes "^n=b") (codes "c")) } ∷ []) }
{}

/// What they say of texts that ask no questions: a name stands twice, or a key is none of a question, or it
/// asks of any two hosts and of one.
fn no_questions()
    ensures twice { option_and_then questions_in (parse_document (codes
        "question = [{ name = 'q', at = 'n=a' }, { name = 'q', at = 'n=b' }]")) ≡ None }
    ensures other_key { option_and_then questions_in (parse_document (codes
        "question = [{ name = 'q', whlie = 'n=a' }]")) ≡ None }
    ensures two_and_one { option_and_then questions_in (parse_document (codes
        "question = [{ name = 'q', any-two = 'n=a', at = 'n=a' }]")) ≡ None }
{}
