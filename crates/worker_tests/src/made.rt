//! The values of `test_instances`. If one is missing, the test ends at once. So no test returns
//! early while it owns such a value.
use std::process::Abort;
use std::test::Fail;

/// The value that was made. Ends the test if there is none.
pub(crate) fn made<T>(rt: &impl Abort, made: Result<T, Fail>) -> T {
    match made {
        Ok(made) => made,
        Err(_) => panic!(rt; "a table that is none of an instance"),
    }
}
