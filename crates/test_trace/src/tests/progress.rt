//! What is told of an input that is read.
use std::alloc::AllocError;
use std::cell::Cell;
use std::io::{Read, Result};
use std::test::Fail;
use std::time::{Clock, Duration};
use trace_cli::{EndExpressions, Notes, ProgressTeller, TellingReader, drive};

/// A clock on which so many milliseconds pass from one reading to the next.
#[derive(Drop)]
struct Ticks {
    read: Cell<u64>,
    step: u64,
}

impl Clock for Ticks {
    fn monotonic(&self) -> Result<Duration> {
        let now = self.read.get();
        self.read.set(now.saturating_add(self.step));
        Ok(Duration::from_millis(now))
    }

    fn since_1970(&self) -> Result<Duration> {
        self.monotonic()
    }
}

/// Reads five lines, a line a read.
#[test]
fn lines_are_told_once_a_second(rt: HostRuntime) -> std::result::Result<(), Fail> {
    let clock = Ticks {
        read: Cell::new(0),
        step: 600,
    };
    let mut errors: Vec<u8> = Vec::new(rt.alloc());
    let teller = ProgressTeller::new("reader", &clock, &mut errors);
    let mut input = TellingReader::new(b"1\n2\n3\n4\n5\n".as_slice(), Some(teller));
    let mut line = [0; 2];
    for _ in 0..5 {
        assert_eq!(rt; input.read(&mut line).ok(), Some(2));
    }
    assert_eq!(rt; line, [b'5', b'\n']);
    drop(input);
    assert_eq!(rt;
        errors.as_slice(),
        b"reader: 3 lines read\nreader: 5 lines read\n".as_slice()
    );
    Ok(())
}

/// Ann logs the first event and the third, ben the fifth, and carl none. Forty seconds pass from each to the next.
#[test]
fn silent_hosts_are_told_once_a_minute(rt: HostRuntime) -> std::result::Result<(), AllocError> {
    let clock = Ticks {
        read: Cell::new(0),
        step: 40_000,
    };
    let words = [
        "wcptrace", "--at", "ann=x", "--at", "ben=x", "--at", "carl=x",
    ];
    let mut log = b"ann {\"ann\":1}\n\nzed {\"zed\":1}\n\nann {\"ann\":2}\n\nzed {\"zed\":2}\n\n\
        ben {\"ben\":1}\nx\n"
        .as_slice();
    let mut file = b"".as_slice();
    let mut output: Vec<u8> = Vec::new(rt.alloc());
    let mut errors: Vec<u8> = Vec::new(rt.alloc());
    let mut told: Vec<u8> = Vec::new(rt.alloc());
    let ends = EndExpressions::new(rt.alloc(), &[])?;
    let mut notes = Notes::new(rt.alloc(), "wcptrace", &clock, &mut told, true, ends);
    let status = drive(
        rt.alloc(),
        &words,
        &mut file,
        &mut log,
        &mut output,
        &mut errors,
        &mut notes,
    );
    assert_eq!(rt; status, 2);
    assert_eq!(rt; errors.as_slice(), b"wcptrace: nohost carl\n".as_slice());
    drop(notes);
    assert_eq!(rt;
        told.as_slice(),
        b"wcptrace: 3 events read, none of ben, none of carl\nwcptrace: 5 events read, none of carl\n".as_slice()
    );
    Ok(())
}
