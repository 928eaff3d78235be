//! Processes, spelled as their roles, `3*0` for three of role 0, and `0@1` for one that starts in local state 1 and not in 0; and edges,
//! spelled as two processes and a kind: `0-1:0`.

ghost use Rattle.std.specs.Prelude.{◌≤◌, length, IfOk};

use crate::words::{byte, cut, number};
use interconnection::{Edge, Process};
use pair_structure::Name;
use std::alloc::Global;
use std::test::Fail;

/// The processes that are spelled so.
pub fn processes(alloc: Global, groups: &str) -> Result<Vec<Process>, Fail> {
    let mut processes = Vec::new(alloc);
    for group in groups.split_whitespace() {
        let (count, played) = group.split_once('*').unwrap_or(("1", group));
        let (role, start) = cut(played, "@");
        let (role, start) = (byte(role), byte(start));
        for _ in 0..number(count) {
            let name = Name::make(alloc, "p")?;
            processes.push(Process { name, role, start })?;
        }
    }
    Ok(processes)
}

/// The edges that are spelled so, of which there are at most 1,000.
pub fn edges(alloc: Global, joins: &str) -> Result<Vec<Edge>, Fail>
    ensures { IfOk result (λ edges. length edges.items ≤ 1000) }
{
    let mut edges = Vec::new(alloc);
    for join in joins.split_whitespace() {
        edges.push(edge(join))?;
    }
    if edges.len() > 1000 {
        return Err(Fail::from("many edges"));
    }
    Ok(edges)
}

fn edge(join: &str) -> Edge {
    let (pair, kind) = cut(join, ":");
    let (a, b) = cut(pair, "-");
    Edge {
        a: number(a),
        b: number(b),
        kind: byte(kind),
    }
}
