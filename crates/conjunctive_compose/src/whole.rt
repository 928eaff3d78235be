ghost use Rattle.std.specs.Prelude.{◌≡◌, ◌<◌, length, slice_set};
ghost use Rattle.conjunctive_compose.specs.Whole.{local_at, value_at};

use std::marker::Model;

/// A local state for each process, and a shared value for each edge, in the order of their numbers.
#[derive(Debug, Drop)]
pub struct Whole {
    pub locals: Vec<u8>,
    pub shared: Vec<u64>,
}

impl Model for Whole {
    ghost use Rattle.conjunctive_compose.specs.Whole.{WholeParts};

    ghost Value = { WholeParts };

    ghost view = { λ w. record { locals = w.locals.items; shared = w.shared.items } };
}

impl Whole {
    pub(crate) fn local(&self, process: u32) -> u8
        requires { process < length self.now.locals }
        ensures { result ≡ local_at self.now process }
    {
        self.locals[process as usize]
    }

    pub(crate) fn value(&self, edge: u32) -> u64
        requires { edge < length self.now.shared }
        ensures { result ≡ value_at self.now edge }
    {
        self.shared[edge as usize]
    }

    pub(crate) fn set_local(&mut self, process: u32, local: u8)
        requires { process < length self.old.locals }
        ensures { self.new ≡ record { locals = slice_set self.old.locals process local; shared = self.old.shared } }
    {
        self.locals[process as usize] = local;
    }

    pub(crate) fn set_value(&mut self, edge: u32, value: u64)
        requires { edge < length self.old.shared }
        ensures { self.new ≡ record { locals = self.old.locals; shared = slice_set self.old.shared edge value } }
    {
        self.shared[edge as usize] = value;
    }
}
