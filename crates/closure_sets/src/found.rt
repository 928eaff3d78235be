ghost use Rattle.std.specs.Prelude.{◌≡◌, [], OnOk};
ghost use Rattle.closure_sets.specs.Firsts.{IsNoted};
ghost use Rattle.closure_sets.specs.Found.{sets_of};
ghost use Rattle.closure_sets.specs.Row.{set_of};

use crate::Row;
use pair_structure::Memory;
use std::alloc::Global;
use std::collections::BTreeSet;
use std::marker::Model;

/// Rows in the order in which they were found, none twice. Contracts see the list.
#[derive(Drop)]
pub(crate) struct Found {
    rows: Vec<Row>,
    known: BTreeSet<Row>,
}

impl Model for Found {
    ghost use Rattle.std.specs.Prelude.{List};
    ghost use Rattle.closure_sets.specs.Found.{IsFound};
    ghost use Rattle.closure_sets.specs.declared.row.Row.{Row};

    ghost Value = { List Row };

    ghost view = { λ f. f.rows.items };

    ghost invariant = { λ f. IsFound f.rows.items f.known };
}

impl Found {
    pub(crate) fn new(alloc: Global) -> Found
        ensures { result ≡ [] }
    {
        Found {
            rows: Vec::new(alloc),
            known: BTreeSet::new(alloc),
        }
    }

    /// The rows.
    pub(crate) fn into_rows(self) -> Vec<Row>
        ensures { result.items ≡ self }
    {
        self.rows
    }

    /// Notes a row unless it was found before. Logarithmic in the rows.
    pub(crate) fn note(&mut self, row: Row) -> Result<(), Memory>
        ensures { OnOk result (IsNoted (sets_of self.old) (set_of row.words) (sets_of self.new)) }
    {
        row.look();
        if self.known.contains(&row) {
            return Ok(());
        }
        self.rows.push(row)?;
        match self.known.insert(row) {
            Ok(_) => Ok(()),
            Err(_) => {
                self.rows.pop();
                Err(Memory)
            }
        }
    }
}
