ghost use Rattle.std.specs.Prelude.{◌≤◌, ◌<◌, ℕ, List, Option, length, OnOk, OnErr};
ghost use Rattle.edge_io.specs.Counts.{Rose};
ghost use Rattle.edge_io.specs.Told.{Appends, AppendsPrefix};

use thiserror::Error;

/// Why a piece was not taken whole.
#[derive(Clone, Copy, Debug, PartialEq, Eq, Error)]
pub enum SinkFault {
    /// The sink failed. Of the piece the first bytes, maybe none, were appended.
    #[error("the output cannot be written")]
    Failed,
}

/// Takes the bytes of a text, piece by piece.
pub trait Sink {
    /// The bytes so far, where they are told.
    ghost written: { Self → Option (List ℕ) };

    /// How often the sink has failed.
    ghost faults: { Self → ℕ };

    /// Appends a piece, or some of it and fails.
    fn put(&mut self, bytes: &[u8]) -> Result<(), SinkFault>
        requires { 0 < length bytes.now }

        ensures whole { OnOk result (Appends (written self.old) (written self.new) bytes.now) }
        ensures part { OnErr result (AppendsPrefix (written self.old) (written self.new) bytes.now) }
        ensures failed { OnErr result (Rose (faults self.old) (faults self.new)) }
        ensures faults_stay { faults self.old ≤ faults self.new };
}
