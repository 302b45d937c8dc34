//! What tests assert, in functions of their own: a macro is proved again wherever it is used.
ghost use Rattle.std.specs.Prelude.{◌≡◌, true};

use std::fmt::Debug;
use std::process::Abort;
use std::test::Fail;

/// Asserts that `came` is the same as `wanted`; `case` says what is compared.
pub fn assert_same<T: PartialEq + Debug + Drop>(rt: &impl Abort, came: T, wanted: T, case: &str) {
    assert_eq!(rt; came, wanted, "{case}");
}

/// Asserts what `case` says.
pub fn assert_holds(rt: &impl Abort, holds: bool, case: &str)
    ensures { holds ≡ true }
{
    assert!(rt; holds, "{case}");
}

/// Asserts that these octets came; those wanted are given in hexadecimal.
pub fn assert_hex(
    rt: &(impl Abort + AllocGlobal),
    came: &[u8],
    wanted: &str,
    case: &str,
) -> Result<(), Fail> {
    let came = hex::encode(rt.alloc(), came)?;
    assert_same(rt, came.as_str(), wanted, case);
    Ok(())
}
