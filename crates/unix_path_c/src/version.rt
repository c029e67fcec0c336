//! The version of the library.
ghost use Rattle.std.specs.Prelude.{◌≡◌};

/// Returns the version of the loaded library: 65,536 times its major number, plus 256 times its
/// minor number, plus its patch number.
///
/// For version 1.1.0 it is 0x010100.
#[unsafe(no_mangle)]
pub extern "C" fn unix_path_version() -> u32
    ensures { result ≡ 65792 }
{
    0x01_0100
}
