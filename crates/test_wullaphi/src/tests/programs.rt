//! Random programs of three processes, which come to their ends whatever the schedule.
use std::alloc::{AllocError, Global};

/// How many steps a program has, beside those that start and join the third process.
const STEPS: u32 = 30;

/// How many places the narrow queue has.
pub const NARROW: usize = 2;

/// One of two locks.
#[derive(Clone, Copy)]
pub enum Which {
    First,
    Second,
}

/// What a process does. A step waits only for steps that were made before it, in the order of the whole program.
#[derive(Clone, Copy)]
pub enum Step {
    /// Its condition holds from now on, if it didn't.
    Begin,
    /// Its condition no longer holds.
    End,
    /// Has this lock for a moment, in which its condition holds.
    TrueUnder(Which),
    /// Adds one to the number under this lock, and tells who waits for it.
    Raise(Which),
    /// Waits under this lock until the number there is at least this.
    Await(Which, u32),
    /// Has the first lock, and in it the second.
    Nested,
    /// Writes the cell, if nobody has.
    Write,
    /// Reads the cell, if somebody has written it.
    Read,
    /// Puts an item into the wide queue, which has room for all.
    Put,
    Get,
    /// Puts an item into the narrow queue.
    PutNarrow,
    GetNarrow,
    /// Leaves an open message, which anyone may take.
    Leave,
    /// Takes the open message, if there is one.
    Take,
    /// Starts the third process.
    Start,
    /// Waits until it is started.
    Started,
    /// Lets the first know that the third has ended.
    Ended,
    /// Waits for the third.
    Join,
}

/// Numbers in no regular order, by a linear congruence.
#[derive(Drop)]
struct Numbers(u32);

impl Numbers {
    /// The next one, below this.
    fn below(&mut self, end: u32) -> u32 {
        self.0 = self.0.wrapping_mul(1_664_525).wrapping_add(1_013_904_223);
        (self.0 >> 8) % end.max(1)
    }

    fn which(&mut self) -> Which {
        if self.below(2) == 0 {
            Which::First
        } else {
            Which::Second
        }
    }
}

/// A program that is written step by step, and what the steps so far add up to.
#[derive(Drop)]
struct Writing {
    numbers: Numbers,
    steps: [Vec<Step>; 3],
    is_started: bool,
    raised_first: u32,
    raised_second: u32,
    in_wide: u32,
    in_narrow: usize,
    /// Who gets from the wide queue, puts into the narrow one, and gets from there: another would take their turn.
    getter: u32,
    narrow_putter: u32,
    narrow_getter: u32,
}

impl Writing {
    fn new(alloc: Global, seed: u32) -> Writing {
        let mut numbers = Numbers(seed.wrapping_mul(2_654_435_761));
        let getter = numbers.below(3);
        let narrow_putter = numbers.below(3);
        let narrow_getter = narrow_putter.wrapping_add(1).wrapping_add(numbers.below(2)) % 3;
        Writing {
            numbers,
            steps: [Vec::new(alloc), Vec::new(alloc), Vec::new(alloc)],
            is_started: false,
            raised_first: 0,
            raised_second: 0,
            in_wide: 0,
            in_narrow: 0,
            getter,
            narrow_putter,
            narrow_getter,
        }
    }

    /// Adds a step of this process. The first starts the third before the third's first step.
    fn add(&mut self, process: u32, step: Step) -> Result<(), AllocError> {
        if process == 2 && !self.is_started {
            self.is_started = true;
            self.push(0, Step::Start)?;
            self.push(2, Step::Started)?;
        }
        self.push(process, step)
    }

    fn push(&mut self, process: u32, step: Step) -> Result<(), AllocError> {
        if let Some(steps) = self.steps.get_mut(process as usize) {
            steps.push(step)?;
        }
        Ok(())
    }

    fn raise(&mut self) -> Step {
        let which = self.numbers.which();
        match which {
            Which::First => self.raised_first = self.raised_first.wrapping_add(1),
            Which::Second => self.raised_second = self.raised_second.wrapping_add(1),
        }
        Step::Raise(which)
    }

    fn wait(&mut self) -> Step {
        let which = self.numbers.which();
        match which {
            Which::First => Step::Await(which, self.raised_first),
            Which::Second => Step::Await(which, self.raised_second),
        }
    }

    fn add_get(&mut self) -> Result<(), AllocError> {
        if self.in_wide > 0 {
            self.in_wide -= 1;
            self.add(self.getter, Step::Get)?;
        }
        Ok(())
    }

    fn add_narrow(&mut self) -> Result<(), AllocError> {
        let gets = self.in_narrow == NARROW || self.numbers.below(2) == 0;
        if gets && self.in_narrow > 0 {
            self.in_narrow -= 1;
            self.add(self.narrow_getter, Step::GetNarrow)
        } else {
            self.in_narrow = self.in_narrow.wrapping_add(1);
            self.add(self.narrow_putter, Step::PutNarrow)
        }
    }

    fn add_any(&mut self) -> Result<(), AllocError> {
        let process = self.numbers.below(3);
        let step = match self.numbers.below(18) {
            0..4 => Step::Begin,
            4 | 5 => Step::End,
            6 => Step::TrueUnder(self.numbers.which()),
            7 => self.raise(),
            8 | 9 => self.wait(),
            10 => Step::Nested,
            11 => Step::Write,
            12 => Step::Read,
            13 => {
                self.in_wide = self.in_wide.wrapping_add(1);
                Step::Put
            }
            14 => return self.add_get(),
            15 => return self.add_narrow(),
            16 => Step::Leave,
            _ => Step::Take,
        };
        self.add(process, step)
    }
}

/// The steps of each process of the program with this seed.
pub fn random_program(alloc: Global, seed: u32) -> Result<[Vec<Step>; 3], AllocError> {
    let mut writing = Writing::new(alloc, seed);
    for _ in 0..STEPS {
        writing.add_any()?;
    }
    writing.add(2, Step::Ended)?;
    writing.add(0, Step::Join)?;
    Ok(writing.steps)
}
