//! Questions of a file that ask whether their conditions must have held at once.
ghost use Rattle.std.specs.Prelude.{◌≡◌, ◌∷◌, [], None, Some, codes, option_and_then};
ghost use Rattle.toml.specs.Parse.{parse_document};
ghost use Rattle.trace_questions.specs.Wordings.{of_hosts, of_hosts_definitely, questions_in};

use super::question_files::assert_told;

/// Questions that ask so, or say that they don't.
const ASKED: &[(&str, &str)] = &[
    (
        "[[question]]\nname = 'q'\ndefinitely = true\nwhile = 'a=b'\nfrom = 'c=d'\nuntil = 'c=e'\n",
        "q: definitely a while b; c from d until e;\n",
    ),
    (
        "[[question]]\nname = 'q'\nwhile = 'a=b'\nat = []\ndefinitely = true\n",
        "q: definitely a while b;\n",
    ),
    (
        "[[question]]\nname = 'q'\nwhile = 'a=b'\nat = 'c=d'\ndefinitely = false\n",
        "q: a while b; c at d;\n",
    ),
    (
        "[[question]]\nname = 'q'\nany-two = 'a=b'\ndefinitely = false\n",
        "q: any two of a a while b;\n",
    ),
];

#[test]
fn a_question_asks_definitely_by_a_flag(rt: HostRuntime) {
    assert_told(&rt, rt.alloc(), ASKED);
}

/// Questions that can't ask so.
const NOT_ASKED: &[(&str, &str)] = &[
    (
        "[[question]]\nname = 'q'\nwhile = 'a=b'\ndefinitely = 'true'\n",
        "question 1 (q): key \"definitely\": true or false is wanted",
    ),
    (
        "[[question]]\nname = 'q'\nany-two = 'a=b'\ndefinitely = 1\n",
        "question 1 (q): key \"definitely\": true or false is wanted",
    ),
    (
        "[[question]]\nname = 'q'\nwhile = 'a=b'\n[[question]]\nname = 'r'\nat = 'c=d'\ndefinitely = true\n",
        "question 2 (r): key \"definitely\" is of states that last: give \"while\", or \"from\" and \"until\", in place \
         of \"at\"",
    ),
    (
        "[[question]]\nname = 'q'\nany-two-from = 'a=b'\nany-two-until = 'c'\ndefinitely = true\n",
        "question 1 (q): key \"definitely\" asks about hosts by their names: give the conditions of two in place of \
         \"any-two\"",
    ),
    (
        "[[question]]\nname = 'q'\ndefinitely = true\nwhile = 'ada'\n",
        "question 1 (q): key \"while\": \"ada\" is not HOST=REGEX",
    ),
];

#[test]
fn a_question_asks_definitely_of_states_of_named_hosts(rt: HostRuntime) {
    assert_told(&rt, rt.alloc(), NOT_ASKED);
}

/// What the definitions say of a text of a question that asks definitely, and of one that doesn't.
fn a_definite_question()
    ensures asks { option_and_then questions_in (parse_document (codes
        "[[question]]\nname = 'd'\nwhile = 'n=a'\ndefinitely = true\n"))
        ≡ Some (record {
          name = codes "d";
          asks = of_hosts_definitely (record { whiles = codes "n=a" ∷ []; froms = []; untils = []; ats = [] });
        } ∷ []) }
    ensures asks_not { option_and_then questions_in (parse_document (codes
        "[[question]]\nname = 'd'\nat = 'n=a'\ndefinitely = false\n"))
        ≡ Some (record {
          name = codes "d";
          asks = of_hosts (record { whiles = []; froms = []; untils = []; ats = codes "n=a" ∷ [] });
        } ∷ []) }
{}

/// What they say of texts of which none is a question: it asks definitely of a point, or of any two hosts, or by no
/// flag.
fn no_definite_questions()
    ensures point { option_and_then questions_in (parse_document (codes
        "question = [{ name = 'q', at = 'n=a', definitely = true }]")) ≡ None }
    ensures any_two { option_and_then questions_in (parse_document (codes
        "question = [{ name = 'q', any-two = 'n=a', definitely = true }]")) ≡ None }
    ensures no_flag { option_and_then questions_in (parse_document (codes
        "question = [{ name = 'q', while = 'n=a', definitely = 1 }]")) ≡ None }
{}
