//! Gates: what lets a test hold a worker.

/// What a worker passes before it begins its work, by its number. It has no meaning: no contract says when a call of it
/// returns.
pub trait Gate {
    fn pass(&self, worker: u32);
}

/// A gate that is always open.
#[derive(Drop)]
pub struct OpenGate;

impl Gate for OpenGate {
    fn pass(&self, _worker: u32) {}
}
