use std::alloc::Global;
use std::process::Abort;
use std::str;
use test_streams::{Sink, Source};
use trace_cli::drive;

/// The words of the two who want the lease.
const BOTH: &[&str] = &["wcptrace", "--while", "ann=holds", "--while", "ben=holds"];

/// The lease of ann runs out while she still holds it, and ben gets it.
pub const RUNS_OUT: &str = "keeper {\"keeper\":1}\nopens\n\
ann {\"ann\":1}\nasks for the lease\n\
keeper {\"keeper\":2, \"ann\":1}\ngives the lease to ann\n\
ann {\"ann\":2, \"keeper\":2}\nholds the lease\n\
ben {\"ben\":1}\nasks for the lease\n\
keeper {\"keeper\":3, \"ann\":1, \"ben\":1}\nthe lease of ann has run out, gives it to ben\n\
ben {\"ben\":2, \"keeper\":3, \"ann\":1}\nholds the lease\n\
ann {\"ann\":3, \"keeper\":2}\ngives the lease back\n";

/// What is found in it.
pub const ANSWER: &str = "found\nann line 8 holds the lease\nben line 14 holds the lease\n";

/// The same with its status.
pub const FOUND: &str = "0 found\nann line 8 holds the lease\nben line 14 holds the lease\n";

/// The status, the line of errors, and what was written.
pub fn answer(rt: &impl Abort, alloc: Global, input: &mut Source<'_>, output: &mut Sink) -> String {
    let mut errors: Vec<u8> = Vec::new(alloc);
    let mut file = b"".as_slice();
    let status = drive(alloc, BOTH, &mut file, input, output, &mut errors, &mut ());
    told(rt, alloc, status, &errors, &output.taken)
}

/// The status, what was said, and what was written.
pub fn told(rt: &impl Abort, alloc: Global, status: u8, errors: &[u8], output: &[u8]) -> String {
    let errors = str::from_utf8(errors).expect(rt, "a text");
    let output = str::from_utf8(output).expect(rt, "a text");
    format!(in alloc; "{status} {errors}{output}").expect(rt, "memory")
}
