//! Tables of a test: each row is a question, ` = ` and the answer. Spaces around an answer do not count.

use crate::words::cut;
use std::alloc::Global;
use std::test::Fail;

/// The rows of which something else is told, each with what is told; nothing where the whole table is right.
pub fn differing<F: Fn(Global, &str) -> Result<String, Fail>>(
    alloc: Global,
    rows: &str,
    told: F,
) -> Result<String, Fail>
    requires { F.IsAlwaysCallable told }
{
    let mut differing = String::new(alloc);
    for row in rows.lines() {
        let (question, answer) = cut(row, " =");
        let text = told(alloc, question)?;
        if text.as_str().trim() != answer.trim() {
            differing.push_str(&format!(in alloc; "{row}, told: {text}\n")?)?;
        }
    }
    Ok(differing)
}
