/// What each worker of a run passes before each of its rounds.
pub trait Gate {
    /// Lets the worker of this number pass. A gate of a test may hold it up for a while.
    fn pass(&self, worker: u32);
}

/// The gate that holds nobody up.
#[derive(Clone, Copy, Debug)]
pub struct OpenGate;

impl Gate for OpenGate {
    fn pass(&self, _worker: u32) {}
}
