//! The law that an order which isn't seen only adds satisfying cuts.
//!
//! What is proved. Let some steps of a computation leave no trace: messages that aren't stamped, or a lock that isn't
//! watched. What happened before by those that are seen happened before (`UnseenBeforeLaw`). Each satisfying cut is,
//! by its observations, a satisfying cut of what is seen (`UnseenOrderLaw`). So where nothing is found by what is seen,
//! there was nothing to find (`UnseenNothingLaw`). What is seen of a computation stands in `specs/Unseen.antt`
//! (`IsSeenOf`): some of its steps in their order, and each observation that found a condition true.
#![tactic(auto)]

ghost use Rattle.wcp_unseen.specs.Unseen.{UnseenBeforeLaw, UnseenNothingLaw, UnseenOrderLaw};

/// What happened before by what is seen happened before.
pub fn unseen_before_law()
    ensures { UnseenBeforeLaw }
{}

/// Each satisfying cut is, by its observations, a satisfying cut of what is seen.
pub fn unseen_order_law()
    ensures { UnseenOrderLaw }
{}

/// Where what is seen has no satisfying cut, the computation has none.
pub fn unseen_nothing_law()
    ensures { UnseenNothingLaw }
{}
