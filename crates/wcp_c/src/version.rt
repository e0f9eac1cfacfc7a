//! The version of the library.
ghost use Rattle.std.specs.Prelude.{◌≡◌};

/// The version: ten thousand times the first number, a hundred times the second, and the third.
#[unsafe(no_mangle)]
pub extern "C" fn wcp_version() -> u32
    ensures { result ≡ 300 }
{
    300
}
