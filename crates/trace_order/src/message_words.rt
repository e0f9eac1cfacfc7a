ghost use Rattle.std.specs.Prelude.{◌≡◌, map, string_bytes};

use crate::event::MessageEvent;
use std::marker::Model;

/// What a line says: the name of a host, the text of an event of it, the ids that the event receives and those that it
/// sends.
#[derive(Debug, Drop)]
pub struct MessageWords {
    host: String,
    text: String,
    receives: Vec<String>,
    sends: Vec<String>,
}

impl Model for MessageWords {
    ghost use Rattle.std.specs.Prelude.{map, string_bytes};
    ghost use Rattle.trace_order.specs.Messages.{Words};

    ghost Value = { Words };

    ghost view = { λ words. record {
      host = string_bytes words.host;
      text = string_bytes words.text;
      receives = map string_bytes words.receives.items;
      sends = map string_bytes words.sends.items;
    } };
}

impl MessageWords {
    /// A line that says these words.
    pub fn new(
        host: String,
        text: String,
        receives: Vec<String>,
        sends: Vec<String>,
    ) -> MessageWords
        ensures { result ≡ record {
          host = string_bytes host;
          text = string_bytes text;
          receives = map string_bytes receives.items;
          sends = map string_bytes sends.items;
        } }
    {
        MessageWords {
            host,
            text,
            receives,
            sends,
        }
    }

    /// The name of the host.
    pub(crate) fn host(&self) -> &str
        ensures { result.now ≡ self.now.host }
    {
        self.host.as_str()
    }

    /// The event that the line of this number says, whose host has this number.
    pub(crate) fn event(self, line: u64, host: usize) -> MessageEvent
        ensures { result ≡ record {
          line = line;
          host = host;
          text = self.text;
          receives = self.receives;
          sends = self.sends;
        } }
    {
        MessageEvent::new(line, host, self.text, self.receives, self.sends)
    }
}
