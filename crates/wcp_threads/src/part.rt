use std::sync::Wait;

/// A part of a run, which leaves an end.
pub trait Part<E>: Send + Drop {
    /// It may run.
    ghost is_ready: { Self → Type 0 };

    /// What it leaves as it has run.
    ghost is_end: { Self → E → Type 0 };
}

/// A part that runs in a thread of its own, with what it shares with others.
pub trait RunsWith<C, E>: Part<E> {
    /// Runs to its end.
    fn run_with<R: Wait>(self, rt: &R, shared: &C) -> E
        requires { Self.is_ready self }
        ensures { Self.is_end self result };
}
