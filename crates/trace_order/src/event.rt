ghost use Rattle.std.specs.Prelude.{◌≡◌, map, string_bytes};

use std::marker::Model;

/// An event of a log without clocks. Its host is a number: that of the host's place among those that came.
#[derive(Debug, Drop)]
pub struct MessageEvent {
    line: u64,
    host: usize,
    text: String,
    receives: Vec<String>,
    sends: Vec<String>,
}

impl Model for MessageEvent {
    ghost use Rattle.std.specs.Prelude.{map, string_bytes};
    ghost use Rattle.trace_order.specs.Messages.{MessageEvent as Seen};

    ghost Value = { Seen };

    ghost view = { λ event. record {
      line = event.line;
      host = event.host;
      text = string_bytes event.text;
      receives = map string_bytes event.receives.items;
      sends = map string_bytes event.sends.items;
    } };
}

impl MessageEvent {
    /// The event of this line, counted from 1.
    pub fn new(
        line: u64,
        host: usize,
        text: String,
        receives: Vec<String>,
        sends: Vec<String>,
    ) -> MessageEvent
        ensures { result ≡ record {
          line = line;
          host = host;
          text = string_bytes text;
          receives = map string_bytes receives.items;
          sends = map string_bytes sends.items;
        } }
    {
        MessageEvent {
            line,
            host,
            text,
            receives,
            sends,
        }
    }

    /// Its line in the log.
    pub fn line(&self) -> u64
        ensures { result ≡ self.now.line }
    {
        self.line
    }

    /// The number of its host.
    pub fn host(&self) -> usize
        ensures { result ≡ self.now.host }
    {
        self.host
    }

    /// What it says.
    pub fn text(&self) -> &str
        ensures { result.now ≡ self.now.text }
    {
        self.text.as_str()
    }

    /// The ids that it receives.
    pub fn receives(&self) -> &[String]
        ensures { map string_bytes result.now ≡ self.now.receives }
    {
        self.receives.as_slice()
    }

    /// The ids that it sends.
    pub fn sends(&self) -> &[String]
        ensures { map string_bytes result.now ≡ self.now.sends }
    {
        self.sends.as_slice()
    }
}
