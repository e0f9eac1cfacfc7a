ghost use Rattle.std.specs.Prelude.{◌≡◌};

use crate::bundle::Bundle;
use wcp_lane::Taker;

/// Where the items of all processes of a watch arrive: the end of the root's lane that takes.
#[derive(Drop)]
pub struct CheckerInbox {
    /// The number of its watch.
    watch: u64,
    /// How many relays its watch has.
    relays: u32,
    taker: Taker<Bundle>,
}

impl CheckerInbox {
    /// The inbox of a watch of this number, which has so many relays, by the end of the root's lane that takes.
    pub fn new(watch: u64, relays: u32, taker: Taker<Bundle>) -> CheckerInbox
        ensures watch { result.watch ≡ watch }
        ensures relays { result.relays ≡ relays }
        ensures taker { result.taker ≡ taker }
    {
        CheckerInbox {
            watch,
            relays,
            taker,
        }
    }

    /// The number of its watch.
    pub fn watch(&self) -> u64
        ensures { result ≡ self.now.watch }
    {
        self.watch
    }

    /// How many relays its watch has.
    pub fn relays(&self) -> u32
        ensures { result ≡ self.now.relays }
    {
        self.relays
    }

    /// The end of the root's lane that takes.
    pub fn into_taker(self) -> Taker<Bundle>
        ensures { result ≡ self.taker }
    {
        self.taker
    }
}
