//! The release of the library.
ghost use Rattle.std.specs.Prelude.{◌≡◌};

const NUMBER: u32 = 2700;

/// Returns the release of the library as one number: 10,000 times the first number of its name, 100 times
/// the second, and the third, so that 1.2.3 is 10,203.
#[unsafe(no_mangle)]
pub extern "C" fn cms_canon_version() -> u32
    ensures { result ≡ 2700 }
{
    NUMBER
}
