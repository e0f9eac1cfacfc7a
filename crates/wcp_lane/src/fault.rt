use thiserror::Error;

/// Why a lane wasn't made.
#[derive(Clone, Copy, Debug, PartialEq, Eq, Error)]
pub enum LaneFault {
    /// The capacity isn't within 1 to [`MAX_LANE`](wcp_clock::MAX_LANE).
    #[error("the capacity is out of range")]
    Cap,
    /// There is no set of members, or two sets share a number.
    #[error("two putters share a number, or there is none")]
    MemberSets,
    /// Memory ran out.
    #[error("memory")]
    NoMemory,
}

/// The channel under the lane refused a put, or had nothing left to take. It does so once the other side
/// is gone; only a lane makes a value of it.
#[derive(Clone, Copy, Debug, PartialEq, Eq, Error)]
#[error("the lane is cut")]
pub struct Cut(pub(crate) ());

/// Some of what was put wasn't taken.
#[derive(Clone, Copy, Debug, PartialEq, Eq, Error)]
#[error("items were left in the lane")]
pub struct Unfinished;
