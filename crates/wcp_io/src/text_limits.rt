//! How much is read of a text.
ghost use Rattle.std.specs.Prelude.{◌≡◌};

/// The most bytes of a text that is read.
pub const MAX_BYTES: usize = 2_097_152;

/// The most reads that take in a text, those counted too that were interrupted.
pub(crate) const MAX_READS: u32 = 4_194_304;
