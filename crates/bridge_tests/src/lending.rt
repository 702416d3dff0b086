//! Values that are made for a test, lent to it and discarded. (The functions are generic, because a
//! function that itself holds a bridge is expensive to check.) Also the report of a failed test.

use std::process::Abort;
use std::test::Fail;

/// Returns whether the value was made, and a test that borrows it passes.
pub fn lent<T: Drop, E: Drop, F: FnOnce(&mut T) -> bool>(made: Result<T, E>, test: F) -> bool
    requires { F.IsAlwaysCallable test }
{
    match made {
        Ok(mut value) => test(&mut value),
        Err(_) => false,
    }
}

/// Returns whether the value was made, and each of these steps has its expected result.
pub fn come_of<T: Drop, E: Drop, S, F: FnMut(&mut T, &S) -> bool>(
    made: Result<T, E>,
    mut play: F,
    steps: &[S],
) -> bool
    requires { F.IsAlwaysCallable play }
{
    match made {
        Ok(mut value) => {
            let mut are_so = true;
            for step in steps {
                are_so &= play(&mut value, step);
            }
            are_so
        }
        Err(_) => false,
    }
}

/// Discards two values, with everything that they hold.
pub fn let_both_go<S: Drop, T: Drop>(one: S, other: T) {
    drop(one);
    drop(other);
}

/// Ends the test if this is false, and names the row, or the call that fails. (Only here, because
/// formatting a text is expensive to check.)
pub fn holds_at<R: Abort>(rt: &R, is_so: bool, row: usize) {
    assert!(rt; is_so, "row {row}");
}

/// Returns the result of a test: passed if this is true, and otherwise failed, or failed with the
/// fault that prevented a result.
pub fn passes(is_so: Result<bool, Fail>) -> Result<(), Fail> {
    match is_so {
        Ok(true) => Ok(()),
        Ok(false) => Err(Fail::from("another answer")),
        Err(fault) => Err(fault),
    }
}
