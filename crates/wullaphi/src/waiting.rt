use std::alloc::{AllocError, Global};
use std::sync::{Mutex, Wait};
use wcp_book::{Answers, Book, News, ToldAnswer};

/// What a lock holds that tells its news to whoever asks: a [`Book`].
pub trait TellsNews: Sized {
    /// The news, which may be still to come.
    type News;

    /// What the news say.
    type Answer;

    /// Its next news. `Err` where memory runs out.
    fn news(&mut self, alloc: Global) -> Result<Self::News, AllocError>;

    /// What the news say, once they have come. The thread sleeps until then.
    fn wait<R: Wait>(rt: &R, news: Self::News) -> Self::Answer;
}

impl<A: Answers> TellsNews for Book<A> {
    type News = News<A>;

    type Answer = ToldAnswer<A>;

    fn news(&mut self, alloc: Global) -> Result<News<A>, AllocError> {
        Book::news(self, alloc)
    }

    fn wait<R: Wait>(rt: &R, news: News<A>) -> ToldAnswer<A> {
        news.wait(rt)
    }
}

/// What a watch that is given this book tells of its cut: that it was found, as soon as it is, and once the watch has
/// ended, that there is none, that it isn't known, or that the watch hasn't run. The thread sleeps until then. `Err`
/// where memory runs out.
///
/// Of a [`Book`] it is a [`ToldAnswer`], and so one that this book was told, or `NotRun`. The answer can only be of this
/// book: of a type that it doesn't know, this has no other value than the one under the lock.
///
/// Where the watch hasn't begun the book, this waits for it. A book that was used before still tells of the watch that
/// has ended: who waits for the next one, and may be earlier than it, begins the book before (`Book::begin`).
///
/// A process may wait too, where a cut is sure to come: a watch doesn't end before its processes.
pub fn wait_for_cut<R: Wait, B: TellsNews>(
    rt: &R,
    alloc: Global,
    book: &Mutex<B>,
) -> Result<B::Answer, AllocError> {
    let news = book.lock(rt).news(alloc)?;
    Ok(B::wait(rt, news))
}
