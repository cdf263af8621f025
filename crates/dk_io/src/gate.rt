//! What workers pass.

/// A gate that a worker passes before each piece of its work. Nothing is said of what it does.
pub trait Gate: Sync {
    fn pass(&self, piece: u32);
}

/// A gate that is always open.
#[derive(Clone, Copy, Debug)]
pub struct NoGate;

impl Gate for NoGate {
    fn pass(&self, _piece: u32) {}
}
