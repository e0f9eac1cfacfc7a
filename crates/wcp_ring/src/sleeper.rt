use std::alloc::{AllocError, Global};
use std::hint;
use std::marker::Model;
use std::sync::atomic::AtomicU32;
use std::sync::atomic::Ordering::SeqCst;
use std::sync::{Arc, Wait};
use std::thread::{self, Parker};
use std::time::Duration;

/// The most looks of a thread that finds nothing before it gives way to others.
const MOST_LOOKS: u32 = 512;

/// After so many sleeps a thread tries anew whether looking on pays.
const SLEEPS_A_TRY: u32 = 64;

/// How deep a thread sleeps, for those that wake it.
const AWAKE: u32 = 0;

/// It looks by itself, in a while.
const NAPPING: u32 = 1;

/// It wants to be woken.
const ASLEEP: u32 = 2;

/// What a thread that waits shares with those that wake it.
#[derive(Drop)]
struct Bed {
    parker: Parker,
    /// `AWAKE`, `NAPPING` or `ASLEEP`.
    depth: AtomicU32,
}

/// By this a thread waits for others: who takes while its rings are empty, and who puts while its ring is full. A bell
/// of it wakes the thread. Clauses see nothing of it.
#[derive(Drop)]
pub struct Sleeper {
    bed: Arc<Bed, Global>,
    /// How long it naps before it sleeps, if it does.
    nap: Option<Duration>,
    /// How often in a row it found nothing.
    rests: u32,
    /// How often it may look on before it gives way: 0 where it never looks on.
    most_looks: u32,
    /// How often it looks on before it gives way.
    looks: u32,
    /// How often it slept.
    sleeps: u32,
    /// What it rings before it says that it sleeps.
    bell: Option<Bell>,
}

impl Model for Sleeper {
    ghost use Rattle.std.specs.Prelude.{⊤};

    ghost Value = { ⊤ };

    ghost view = { λ _. tt };
}

impl Sleeper {
    /// A thread that is awake, and doesn't look on before it gives way. `Err` where memory runs out.
    pub fn new(alloc: Global) -> Result<Sleeper, AllocError> {
        let bed = Bed {
            parker: Parker::new(),
            depth: AtomicU32::new(AWAKE),
        };
        Ok(Sleeper {
            bed: Arc::new(alloc, bed)?,
            nap: None,
            rests: 0,
            most_looks: 0,
            looks: 0,
            sleeps: 0,
            bell: None,
        })
    }

    /// The same thread, which from now on naps for so long before it sleeps. A bell that rings doesn't wake it from a
    /// nap, so what comes one by one meanwhile is taken together. Who can't wait for so long rouses it.
    pub fn napping(self, nap: Duration) -> Sleeper {
        Sleeper {
            nap: Some(nap),
            ..self
        }
    }

    /// The same thread, which from now on looks on where that paid lately.
    pub(crate) fn looking_on(self) -> Sleeper {
        Sleeper {
            most_looks: MOST_LOOKS,
            ..self
        }
    }

    /// The same thread, which from now on rings this bell of another before it says that it sleeps.
    pub(crate) fn with_bell(self, bell: Bell) -> Sleeper {
        Sleeper {
            bell: Some(bell),
            ..self
        }
    }

    /// A bell that wakes it. `Err` where memory runs out.
    pub fn bell(&self) -> Result<Bell, AllocError> {
        Ok(Bell {
            bed: Arc::try_clone(&self.bed)?,
        })
    }

    /// What it waited for came.
    #[inline(always)]
    pub fn stir(&mut self) {
        if self.rests > 0 {
            self.stirred();
        }
    }

    /// What it waited for came after a wait.
    fn stirred(&mut self) {
        if self.rests <= self.looks {
            self.looks = self.most_looks;
        } else {
            self.bed.depth.store(AWAKE, SeqCst);
        }
        self.rests = 0;
    }

    /// What it waits for didn't come. It looks on some times where that paid lately, gives way to other threads or naps,
    /// and then sleeps. Before a nap, and before it sleeps, it says so at one call and rests at the next: the thread
    /// looks at its rings between any two calls, so what came before the bells knew is seen.
    pub fn rest<R: Wait>(&mut self, rt: &R) {
        match (self.rests.checked_sub(self.looks), self.nap) {
            (None, _) => hint::spin_loop(),
            (Some(0), None) => thread::yield_now(),
            (Some(0), Some(_)) => self.bed.depth.store(NAPPING, SeqCst),
            (Some(1), Some(nap)) => self.take_a_nap(rt, nap),
            (Some(1), None) | (Some(2), Some(_)) => self.fall_asleep(),
            _ => return self.sleep(rt),
        }
        self.rests = self.rests.saturating_add(1);
    }

    /// Naps for so long.
    fn take_a_nap<R: Wait>(&self, rt: &R, nap: Duration) {
        self.bed.parker.park_timeout(rt, nap);
        self.bed.depth.store(AWAKE, SeqCst);
    }

    /// Sleeps.
    fn sleep<R: Wait>(&mut self, rt: &R) {
        self.bed.parker.park(rt);
        self.bed.depth.store(AWAKE, SeqCst);
        self.rests = 0;
        self.sleeps = self.sleeps.wrapping_add(1);
        self.looks = if self.sleeps % SLEEPS_A_TRY == 0 {
            self.most_looks
        } else {
            self.looks / 2
        };
    }

    /// Says that it sleeps, once the other thread was told of what this one put for it.
    fn fall_asleep(&self) {
        if let Some(bell) = &self.bell {
            bell.ring();
        }
        self.bed.depth.store(ASLEEP, SeqCst);
    }
}

/// Wakes a thread that sleeps, and does so once more when it is dropped. Clauses see nothing of it.
pub struct Bell {
    bed: Arc<Bed, Global>,
}

impl Model for Bell {
    ghost use Rattle.std.specs.Prelude.{⊤};

    ghost Value = { ⊤ };

    ghost view = { λ _. tt };
}

impl Bell {
    /// Wakes the thread, if it has said that it sleeps.
    #[inline(always)]
    pub fn ring(&self) {
        if self.is_awaited() {
            self.wake();
        }
    }

    /// Wakes the thread, also from a nap.
    #[inline(always)]
    pub(crate) fn rouse(&self) {
        if self.bed.depth.load(SeqCst) != AWAKE {
            self.wake();
        }
    }

    /// Whether the thread has said that it sleeps.
    #[inline(always)]
    pub(crate) fn is_awaited(&self) -> bool {
        self.bed.depth.load(SeqCst) == ASLEEP
    }

    /// A bell that wakes the same thread.
    pub(crate) fn try_clone(&self) -> Result<Bell, AllocError> {
        Ok(Bell {
            bed: Arc::try_clone(&self.bed)?,
        })
    }

    fn wake(&self) {
        if self.bed.depth.swap(AWAKE, SeqCst) != AWAKE {
            self.bed.parker.unpark();
        }
    }
}

impl Drop for Bell {
    fn drop(self) {
        let Bell { bed } = self;
        bed.parker.unpark();
    }
}
