//! What a test wants to be so. An error costs a proof less than a call that may abort and formats both sides.
use std::test::Fail;

/// An error where something is not so.
pub fn ensure(holds: bool) -> Result<(), Fail> {
    if holds {
        Ok(())
    } else {
        Err(Fail::from("it is not so"))
    }
}

/// An error where a text is another.
pub fn is(found: &str, wanted: &str) -> Result<(), Fail> {
    if found == wanted {
        Ok(())
    } else {
        Err(Fail::new(format_args!("{found}, and not {wanted}")))
    }
}
