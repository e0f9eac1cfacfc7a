ghost use Rattle.std.specs.Prelude.{◌≡◌, IfOk, string_bytes};
ghost use Rattle.trace_messages.specs.Lines.{second_words};
ghost use Rattle.trace_messages.specs.declared.message_fault.MessageFault.TheVariants.{Memory};

use crate::ids::told;
use std::alloc::{AllocError, AllocFailed, Global};
use trace_log::LogFaultKind;
use trace_order::{PutFault, SecondSend};

/// Why a line wasn't taken.
#[derive(Debug, Drop)]
pub(crate) enum MessageFault {
    /// It has this fault, which these words tell.
    Has(LogFaultKind, &'static str),
    /// The same, in words that name what stands there.
    Told(LogFaultKind, String),
    /// Memory ran out.
    Memory,
}

impl From<AllocError> for MessageFault {
    ghost from_gives = { λ _ given. given ≡ Memory };

    fn from(_error: AllocError) -> MessageFault {
        MessageFault::Memory
    }
}

impl<T: Drop> From<AllocFailed<T>> for MessageFault {
    ghost from_gives = { λ _ given. given ≡ Memory };

    fn from(_error: AllocFailed<T>) -> MessageFault {
        MessageFault::Memory
    }
}

impl MessageFault {
    ghost use Rattle.trace_messages.specs.Lines.{IsPutFault};

    /// What a fault of the order is for a line.
    pub(crate) fn of_put(alloc: Global, fault: PutFault) -> MessageFault
        ensures { IsPutFault fault result }
    {
        let PutFault::Twice(second) = fault else {
            return MessageFault::Memory;
        };
        match second_words(alloc, &second) {
            Ok(words) => MessageFault::Told(LogFaultKind::Twice, words),
            Err(AllocError) => MessageFault::Memory,
        }
    }
}

/// The words of the fault where an id is sent a second time.
fn second_words(alloc: Global, second: &SecondSend) -> Result<String, AllocError>
    ensures { IfOk result (λ words. string_bytes words ≡ second_words second.now) }
{
    let id = told(second.id().as_bytes());
    let first = second.first();
    format!(in alloc; "\"{id}\" is sent a second time, first in line {first}")
}
