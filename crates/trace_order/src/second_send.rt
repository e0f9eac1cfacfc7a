ghost use Rattle.std.specs.Prelude.{◌≡◌, string_bytes};

use std::marker::Model;

/// An id that is sent a second time.
#[derive(Debug, Drop)]
pub struct SecondSend {
    id: String,
    first: u64,
}

impl Model for SecondSend {
    ghost use Rattle.std.specs.Prelude.{string_bytes};
    ghost use Rattle.trace_order.specs.Ids.{Second};

    ghost Value = { Second };

    ghost view = { λ second. record { id = string_bytes second.id; first = second.first } };
}

impl SecondSend {
    /// This id, which the event of this line sends first.
    pub(crate) fn new(id: String, first: u64) -> SecondSend
        ensures { result ≡ record { id = string_bytes id; first = first } }
    {
        SecondSend { id, first }
    }

    /// The id.
    pub fn id(&self) -> &str
        ensures { result.now ≡ self.now.id }
    {
        self.id.as_str()
    }

    /// The line of the event that sends it first.
    pub fn first(&self) -> u64
        ensures { result ≡ self.now.first }
    {
        self.first
    }
}
