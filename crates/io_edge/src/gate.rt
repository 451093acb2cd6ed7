/// Where workers wait for their turns.
pub trait Gate {
    /// Called by this worker before this turn of its.
    fn turn(&self, worker: u32, turn: u64);
}

/// A gate at which nobody waits.
#[derive(Clone, Copy, Debug, PartialEq, Eq)]
pub struct OpenGate;

impl Gate for OpenGate {
    fn turn(&self, _worker: u32, _turn: u64) {}
}
