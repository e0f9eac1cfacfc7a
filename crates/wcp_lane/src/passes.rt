//! What each end of a lane knows, and the rule that ties it to what the lane holds. None of these values is ever made.
ghost use Rattle.std.specs.Prelude.{◌≡◌, List, [], ◌∷◌, ◌++◌};
ghost use Rattle.std.specs.Ordering.{nat_cmp};
ghost use Rattle.std.specs.FinSet as set;

use crate::members::Members;
use crate::message::Origin;
use crossbeam_channel::protocol::{Join, Lesson, Outcome, Protocol, Split};
use crossbeam_channel::{Pass, RuledReceiver, RuledSender};
use std::collections::LinkedList;
use std::marker::{Brand, PhantomData};

/// The numbers that an end stands for, and the messages put of them.
#[derive(Drop)]
pub struct Home<M> {
    pub numbers: Members,
    pub put: LinkedList<M>,
}

/// What an end knows: whether it takes, what it has taken, and the numbers that it stands for.
#[derive(Drop)]
pub struct Hand<M> {
    pub takes: bool,
    pub taken: LinkedList<M>,
    pub home: LinkedList<Home<M>>,
}

/// The lane rule, over what the ends of a lane know.
pub struct Ruled;

impl<M: Origin> Protocol<M, Hand<M>> for Ruled {
    ghost use Rattle.std.specs.Prelude.{[]};
    ghost use Rattle.wcp_lane.specs.Passes.{IsRuled, taker, all_numbers};

    ghost holds = { IsRuled M.items M.origin M.place M.last };

    ghost first = { taker all_numbers [] };
}

/// A message is put.
pub struct Puts;

impl<M: Origin> Outcome<M, Hand<M>> for Puts {
    ghost use Rattle.wcp_lane.specs.Passes.{IsPut};

    ghost then = { IsPut };
}

impl<M: Origin> Lesson<M, Hand<M>> for Puts {
    ghost use Rattle.std.specs.Prelude.{⊤};

    ghost fact = { λ v within. ⊤ };
}

/// A message is taken.
pub struct Takes;

impl<M: Origin> Outcome<M, Hand<M>> for Takes {
    ghost use Rattle.wcp_lane.specs.Passes.{IsTaken};

    ghost then = { IsTaken M.items M.origin M.place M.last };
}

impl<M: Origin> Lesson<M, Hand<M>> for Takes {
    ghost use Rattle.std.specs.Prelude.{⊤};

    ghost fact = { λ v within. ⊤ };
}

/// A set of numbers that is known at run time.
pub trait Numbers {
    ghost use Rattle.std.specs.Ordering.{nat_cmp};
    ghost use Rattle.std.specs.FinSet as set;

    ghost numbers: { set.FinSet nat_cmp };
}

impl Numbers for Brand {
    ghost use Rattle.std.specs.FinSet as set;

    ghost numbers = { set.empty };
}

/// An end is given the numbers of a set, of which nothing was put.
pub struct Given<N: Numbers>(PhantomData<N>);

impl<M, N: Numbers> Split<Hand<M>> for Given<N> {
    ghost use Rattle.std.specs.Prelude.{[]};
    ghost use Rattle.wcp_lane.specs.Passes.{without, putter};

    ghost left = { without N.numbers };

    ghost right = { λ v. putter N.numbers [] };
}

/// The numbers of one end go to another.
pub struct Joined;

impl<M> Join<Hand<M>> for Joined {
    ghost use Rattle.wcp_lane.specs.Passes.{joined, nobody};

    ghost both = { joined };

    ghost spent = { nobody };
}

/// Of each number that the taker stands for, what was put is what was taken and then what the lane holds.
pub struct Compared;

impl<M: Origin> Lesson<M, Hand<M>> for Compared {
    ghost use Rattle.wcp_lane.specs.Passes.{IsBalanced};

    ghost fact = { IsBalanced M.items M.origin };
}

/// What an end holds to know its part of the rule. It has no bytes.
pub type LanePass<M> = Pass<M, Hand<M>>;

/// The sending half of the channel under a lane.
pub type LaneSender<M> = RuledSender<M, Hand<M>, Ruled>;

/// The receiving half of the channel under a lane.
pub type LaneReceiver<M> = RuledReceiver<M, Hand<M>, Ruled>;
