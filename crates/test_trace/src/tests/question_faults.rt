//! Each fault of a file of questions.
use super::question_files::assert_told;

/// Texts that are no documents.
const NO_DOCUMENTS: &[(&str, &str)] = &[
    (
        "[[question]\n",
        "line 1, column 12: unclosed array table, expected `]]`",
    ),
    (
        "[[question]]\nname = \"é\" x\n",
        "line 2, column 12: unexpected key or value, expected newline, `#`",
    ),
    (
        "[[question]]\nname = 'a'\nname = 'b'\n",
        "line 3, column 1: duplicate key",
    ),
    (
        "[[question]]\n[question]\n",
        "line 2, column 1: duplicate key",
    ),
];

#[test]
fn a_text_is_a_document(rt: HostRuntime) {
    assert_told(&rt, rt.alloc(), NO_DOCUMENTS);
}

/// Documents that have something else than questions, or no question.
const NO_QUESTIONS: &[(&str, &str)] = &[
    ("", "there is no [[question]]"),
    ("question = []", "there is no [[question]]"),
    (
        "question = 3",
        "key \"question\": each question stands under [[question]]",
    ),
    (
        "[question]\nname = 'a'\nat = 'a=b'\n",
        "key \"question\": each question stands under [[question]]",
    ),
    (
        "title = 'a'\n",
        "there is no key \"title\": a file has only questions, each under [[question]]",
    ),
    (
        "[[question]]\nname = 'a'\nat = 'a=b'\n[\"a\\nb\"]\n",
        "there is no key \"a\\u000Ab\": a file has only questions, each under [[question]]",
    ),
    (
        "question = [{ name = 'a', at = 'a=b' }, 'b']",
        "question 2: it is no table",
    ),
];

#[test]
fn a_document_has_questions_alone(rt: HostRuntime) {
    assert_told(&rt, rt.alloc(), NO_QUESTIONS);
}

/// Questions without a name of their own.
const NO_NAMES: &[(&str, &str)] = &[
    (
        "[[question]]\n",
        "question 1: key \"name\" is missing: each question has one",
    ),
    (
        "[[question]]\nname = 3\n",
        "question 1: key \"name\": a name is a text",
    ),
    (
        "[[question]]\nname = ''\n",
        "question 1: key \"name\": a name isn't empty and has no control character",
    ),
    (
        "[[question]]\nname = \"a\\tb\"\n",
        "question 1: key \"name\": a name isn't empty and has no control character",
    ),
    (
        "[[question]]\nname = \"a\\u007f\"\n",
        "question 1: key \"name\": a name isn't empty and has no control character",
    ),
    (
        "[[question]]\nname = 'a'\nat = 'a=b'\n[[question]]\nname = 'b'\nat = 'a=b'\n[[question]]\nname = 'a'\n",
        "question 3 (a): key \"name\": question 1 has this name too",
    ),
];

#[test]
fn a_question_has_a_name_of_its_own(rt: HostRuntime) {
    assert_told(&rt, rt.alloc(), NO_NAMES);
}

/// Questions with other keys, or other values.
const NO_KEYS: &[(&str, &str)] = &[
    (
        "[[question]]\nname = 'lease'\nwhlie = 'a=b'\n",
        "question 1 (lease): there is no key \"whlie\": a question has name, and while, from, until, at and definitely, \
         or any-two, or any-two-from and any-two-until",
    ),
    (
        "[[question]]\nname = 'lease'\nwhile = 3\n",
        "question 1 (lease): key \"while\": a text HOST=REGEX or an array of such texts is wanted",
    ),
    (
        "[[question]]\nname = 'lease'\nat = ['a=b', ['c=d']]\n",
        "question 1 (lease): key \"at\": item 2 of the array is no text",
    ),
    (
        "[[question]]\nname = 'q'\nany-two = 'a=b'\nat = 'a=b'\n",
        "question 1 (q): key \"at\" doesn't go with \"any-two\", which asks about any two hosts alone",
    ),
    (
        "[[question]]\nname = 'q'\nany-two = ['a=b']\n",
        "question 1 (q): key \"any-two\": a text HOSTS=REGEX is wanted",
    ),
    (
        "[[question]]\nname = 'q'\nany-two-from = 'a=b'\nany-two-until = 3\n",
        "question 1 (q): key \"any-two-until\": a text REGEX is wanted",
    ),
    (
        "[[question]]\nname = 'q'\nany-two = 'a=b'\nany-two-until = 'b'\n",
        "question 1 (q): \"any-two\" and \"any-two-from\" are two questions: ask one of them",
    ),
    (
        "[[question]]\nname = 'q'\nany-two-from = 'a=b'\n",
        "question 1 (q): \"any-two-from\" and \"any-two-until\" need each other",
    ),
];

#[test]
fn the_keys_of_a_question_are_few(rt: HostRuntime) {
    assert_told(&rt, rt.alloc(), NO_KEYS);
}

/// Questions whose words say no conditions.
const NO_CONDITIONS: &[(&str, &str)] = &[
    (
        "[[question]]\nname = 'q'\nat = 'a=b'\n[[question]]\nname = 'lease'\nwhile = ['a=b', 'ada']\n",
        "question 2 (lease): key \"while\": \"ada\" is not HOST=REGEX",
    ),
    (
        "[[question]]\nname = 'q'\nuntil = \"\\n\"\n",
        "question 1 (q): key \"until\": \"\\u000A\" is not HOST=REGEX",
    ),
    (
        "[[question]]\nname = 'q'\nfrom = ['n1=a', 'n2=a']\nuntil = 'n2=b'\n",
        "question 1 (q): \"from\" n1 needs an \"until\" n1",
    ),
    (
        "[[question]]\nname = 'q'\nuntil = 'n2=b'\n",
        "question 1 (q): \"until\" n2 needs a \"from\" n2",
    ),
    (
        "[[question]]\nname = 'q'\nat = ['a=b', 'a=c']\n",
        "question 1 (q): a has more than one condition",
    ),
    (
        "[[question]]\nname = 'q'\nfrom = 'a=b'\nuntil = ['a=b', 'a=b']\n",
        "question 1 (q): \"from\" a takes one \"until\" a, and there are more",
    ),
    (
        "[[question]]\nname = 'q'\nwhile = []\n",
        "question 1 (q): no host has a condition: give \"while\", \"from\" and \"until\", or \"at\"",
    ),
    (
        "[[question]]\nname = 'q'\nany-two = 'leader'\n",
        "question 1 (q): key \"any-two\": \"leader\" is not HOSTS=REGEX",
    ),
    (
        "[[question]]\nname = 'q'\nany-two-from = '=leader'\nany-two-until = ''\n",
        "question 1 (q): key \"any-two-from\": \"=leader\" is not HOSTS=REGEX",
    ),
];

#[test]
fn the_words_of_a_question_say_conditions(rt: HostRuntime) {
    assert_told(&rt, rt.alloc(), NO_CONDITIONS);
}

/// Questions with an expression that is none.
const NO_EXPRESSIONS: &[(&str, &str)] = &[
    (
        "[[question]]\nname = 'q'\nat = 'a=b'\n[[question]]\nname = 'lease'\nwhile = ['ben=b', 'ada=(']\n",
        "question 2 (lease): expression ada: regex parse error at 0..1: unclosed group",
    ),
    (
        "[[question]]\nname = 'q'\nfrom = 'n1=a'\nuntil = 'n1=a['\n",
        "question 1 (q): expression n1: regex parse error at 1..2: unclosed character class",
    ),
    (
        "[[question]]\nname = 'q'\nat = \"a\\nb=(\"\n",
        "question 1 (q): expression a\\u000Ab: regex parse error at 0..1: unclosed group",
    ),
    (
        "[[question]]\nname = 'q'\nany-two = '^n(=leader'\n",
        "question 1 (q): expression ^n(: regex parse error at 2..3: unclosed group",
    ),
];

#[test]
fn each_expression_is_one(rt: HostRuntime) {
    assert_told(&rt, rt.alloc(), NO_EXPRESSIONS);
}
