use wcp_book::{Book, BookFault, CutAnswer};
use wcp_model::{GlobalCut, Report, Tally};

#[test]
fn what_is_posted_or_told_first_stays(rt: HostRuntime) {
    let mut book = Book::new(2);
    assert!(rt; book.post(0, 2, 2).is_ok());
    assert_eq!(rt; book.post(0, 1, 1), Err(BookFault::Twice));
    assert_eq!(rt; book.post(2, 1, 1), Err(BookFault::NoSuch));
    let share = Tally {
        emitted: 2,
        taken: 2,
    };
    assert_eq!(rt; (book.share(0), book.totals()), (Some(share), share));
    let first = GlobalCut::new(&[Some(3), Some(1)]);
    book.tell(first);
    book.tell(GlobalCut::new(&[Some(3), Some(2)]));
    assert_eq!(rt; book.copied().found(), Some(first));
}

#[test]
fn a_book_in_use_stays_as_it_is(rt: HostRuntime) {
    let mut book = Book::new(2);
    assert!(rt; book.claim(1));
    assert!(rt; book.post(0, 3, 3).is_ok());
    assert_eq!(rt;
        (book.claim(2), book.begin(2), book.is_in_use()),
        (false, false, true)
    );
    book.refuse();
    assert_eq!(rt; (book.totals().emitted, book.answer()), (3, None));
    book.end(Report::Undecided);
    book.release();
    assert_eq!(rt;
        (book.is_in_use(), book.answer()),
        (false, Some(CutAnswer::Undecided))
    );
    book.refuse();
    assert_eq!(rt;
        (book.totals().emitted, book.answer()),
        (0, Some(CutAnswer::NotRun))
    );
    assert!(rt; book.claim(2));
    book.release();
    assert_eq!(rt; book.answer(), Some(CutAnswer::NotRun));
}
