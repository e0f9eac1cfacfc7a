//! A few texts, with what the program answers. `tests/wcpwatch.py` has more of them.

/// A text, and what it gives.
pub struct Row {
    pub name: &'static str,
    /// The word of the program that reads it.
    pub word: &'static str,
    pub text: &'static str,
    pub output: &'static str,
    pub errors: &'static str,
    pub status: u8,
}

/// Texts that are answered. To name a table costs a proof all its rows, so a function of its own hands it on.
pub fn answered() -> &'static [Row] {
    ANSWERED.as_slice()
}

static ANSWERED: [Row; 4] = [
    Row {
        name: "true again after a send",
        word: "single",
        text: "wcp 1\nprocs 2\np 0 true\np 0 send 1\np 0 true\np 1 recv 0\np 1 true\n",
        output: "found 1 1\nprocess 0 emitted 2 taken 2\nprocess 1 emitted 1 taken 1\ntotal emitted 3 taken 3\n",
        errors: "",
        status: 0,
    },
    Row {
        name: "the only pair is ordered",
        word: "single",
        text: "wcp 1\nprocs 2\np 0 true\np 0 send 1\np 1 recv 0\np 1 true\n",
        output: "none\nprocess 0 emitted 1 taken 1\nprocess 1 emitted 1 taken 1\ntotal emitted 2 taken 2\n",
        errors: "",
        status: 1,
    },
    Row {
        name: "a message that is never received",
        word: "run",
        text: "wcp 1\nprocs 2\np 0 true\np 0 send 1\np 1 true\n",
        output: "found 0 0\nprocess 0 emitted 1 taken 1\nprocess 1 emitted 1 taken 1\ntotal emitted 2 taken 2\n",
        errors: "",
        status: 0,
    },
    Row {
        name: "a process is lost",
        word: "replay",
        text: "wcp 1\nprocs 2\nobserve 0 true\nput 0\nsend 0 1\nobserve 0 true\ndrop 0\nobserve 0 true\nput 0\n\
            admit 0 0\nadmit 0 0\nadmit 0 0\npass 0\npass 0\ncheck\ncheck\ncheck\n",
        output: "done\ndone\ndone\ndone\ndone\nrefused closed\nrefused empty\ndone\ndone\nrefused empty\ndone\n\
            done\ntook 0 snap 0 0 0\ntook 0 lost 1\nrefused empty\nundecided\nprocess 0 emitted 2 taken 1\n\
            process 1 emitted 0 taken 0\ntotal emitted 2 taken 1\n",
        errors: "",
        status: 1,
    },
];

/// Texts that are refused: where a line has a fault, and where the end has.
pub fn refused_texts() -> &'static [Row] {
    REFUSED.as_slice()
}

static REFUSED: [Row; 2] = [
    Row {
        name: "no truth value",
        word: "single",
        text: "wcp 1\nprocs 2\np 0 maybe\n",
        output: "",
        errors: "wcpwatch: line 3: line\n",
        status: 2,
    },
    Row {
        name: "a mutual receive",
        word: "single",
        text: "wcp 1\nprocs 2\np 0 recv 1\np 1 recv 0\n",
        output: "",
        errors: "wcpwatch: line 3: stuck\n",
        status: 2,
    },
];
