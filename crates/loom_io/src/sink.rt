//! Where text goes.
ghost use Rattle.std.specs.Prelude.{ℕ, ◌≡◌, ◌<◌, ◌≤◌, List, Option, length, IfOk, OnOk, OnErr};
ghost use Rattle.loom_io.specs.FaultCount.{Rose};
ghost use Rattle.loom_io.specs.Sink.{Took};

/// The sink had a fault, and took no byte.
#[derive(Clone, Copy, Debug, Drop, PartialEq, Eq)]
pub struct SinkFailed;

/// A place for text.
pub trait Sink {
    /// How many faults there were, up to 18446744073709551615.
    ghost faults: { Self → ℕ };

    /// What was taken, where the sink tells it.
    ghost taken: { Self → Option (List ℕ) };

    /// Takes the first bytes of the piece, which isn't empty, and gives their number, at least 1;
    /// the count of faults stays. At an error no byte was taken, and the count rose in this call.
    fn put(&mut self, piece: &[u8]) -> Result<usize, SinkFailed>
        requires { 0 < length piece.now }
        ensures some { IfOk result (λ n. 0 < n) }
        ensures within { IfOk result (λ n. n ≤ length piece.now) }
        ensures later { faults self.old ≤ faults self.new }
        ensures calm { OnOk result (faults self.new ≡ faults self.old) }
        ensures took { Took (taken self.old) (taken self.new) result piece.now }
        ensures failed { OnErr result (Rose (faults self.old) (faults self.new)) };
}
