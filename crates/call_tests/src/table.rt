//! Tables: each row is a question, ` = ` and the answer; and single answers. Spaces around an answer do not count.

use samples::differing;
use std::alloc::Global;
use std::process::Abort;
use std::test::Fail;

/// Wants that this is told.
pub(crate) fn agree(rt: &impl Abort, told: Result<String, Fail>, answer: &str) -> Result<(), Fail> {
    let text = told?;
    assert_eq!(rt; text.as_str().trim(), answer.trim());
    Ok(())
}

/// Wants of each row that what is told of the question is the answer.
pub(crate) fn expect<F: Fn(Global, &str) -> Result<String, Fail>>(
    rt: &impl Abort,
    alloc: Global,
    rows: &str,
    told: F,
) -> Result<(), Fail>
    requires { F.IsAlwaysCallable told }
{
    let differing = differing(alloc, rows, told)?;
    assert_eq!(rt; differing.as_str(), "");
    Ok(())
}
