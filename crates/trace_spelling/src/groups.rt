ghost use Rattle.std.specs.Prelude.{◌<◌};

/// The numbers of the groups that give the parts of an event.
#[derive(Clone, Copy, Debug)]
pub(crate) struct Groups {
    pub host: usize,
    pub clock: usize,
    pub event: usize,
    ghost host_is_part: { 0 < host },
    ghost clock_is_part: { 0 < clock },
    ghost event_is_part: { 0 < event },
}
