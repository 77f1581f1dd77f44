/// A hook that a thread calls when it begins a task.
pub trait Gate {
    /// The thread begins task `part` of sub-topology `sub`.
    fn arrive(&self, sub: u32, part: u32);
}

/// A gate where nobody waits.
#[derive(Clone, Copy, Debug)]
pub struct NoGate;

impl Gate for NoGate {
    fn arrive(&self, _sub: u32, _part: u32) {}
}
