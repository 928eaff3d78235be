use crate::{Asked, Journal};

/// The one journal of many callers' firings, and what each of them was told: list c is that of caller c.
#[derive(Debug, Drop)]
pub struct Report {
    pub journal: Journal,
    pub callers: Vec<Vec<Asked>>,
}
