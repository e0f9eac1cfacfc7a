//! The next news of a book, for those who wait for it.
ghost use Rattle.std.specs.Prelude.{◌≡◌, true};
ghost use Rattle.wcp_book.specs.Allowed.{may_tell};
ghost use Rattle.wcp_book.specs.declared.news.News.TheVariants.{Told};

use crate::answers::{Answers, AnyAnswer};
use crate::cut_answer::{CutAnswer, ToldAnswer};
use std::alloc::{AllocError, Global};
use std::sync::{Arc, OnceLock, Wait};

/// What a book and those who wait for its next news share: written once, with an answer that the book may tell.
type Written<A> = Arc<OnceLock<ToldAnswer<A>>, Global>;

/// The next news of a book, for one who waits for it.
#[derive(Drop)]
pub enum News<A: Answers = AnyAnswer> {
    /// It was there before.
    Told(ToldAnswer<A>),
    /// It is to come.
    Awaited(Awaited<A>),
}

/// News that is to come.
#[derive(Drop)]
pub struct Awaited<A: Answers = AnyAnswer> {
    written: Written<A>,
}

impl<A: Answers> News<A> {
    /// The cut, once it is told, or what the watch came to, once the book has ended without one. The thread sleeps
    /// until then.
    pub fn wait<R: Wait>(self, rt: &R) -> ToldAnswer<A>
        ensures { (answer : _) → self ≡ Told answer → result ≡ answer }
    {
        match self {
            News::Told(answer) => answer,
            News::Awaited(awaited) => ToldAnswer::of(awaited.written.wait(rt).answer()),
        }
    }
}

/// The right to tell the next news, once, to all who wait for it. Where it is let go they are told that no watch has
/// run.
pub(crate) struct Teller<A: Answers> {
    written: Written<A>,
}

impl<A: Answers> Teller<A> {
    /// A teller whose news no one waits for yet.
    pub(crate) fn new(alloc: Global) -> Result<Teller<A>, AllocError> {
        Ok(Teller {
            written: Arc::new(alloc, OnceLock::new())?,
        })
    }

    /// Its news, for one more who waits.
    pub(crate) fn awaited(&self) -> Result<Awaited<A>, AllocError> {
        Ok(Awaited {
            written: Arc::try_clone(&self.written)?,
        })
    }

    /// Tells this, which the book may tell.
    pub(crate) fn tell(self, answer: &CutAnswer)
        requires { may_tell A.allows answer.now ≡ true }
    {
        let _ = self.written.try_set(ToldAnswer::of(*answer));
    }
}

impl<A: Answers> Drop for Teller<A> {
    fn drop(self) {
        let Teller { written } = self;
        let _ = written.try_set(ToldAnswer::of(CutAnswer::NotRun));
    }
}
