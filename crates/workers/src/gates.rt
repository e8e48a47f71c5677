//! What workers pass between their steps.

/// What a worker does next. `Advance` also stands before a checkpoint begins.
#[derive(Clone, Copy, Debug, PartialEq, Eq)]
pub enum Point {
    /// The session begins a call.
    Begin(u16),
    /// The session executes an instruction.
    Step(u16),
    /// The session's call is answered.
    Finish(u16),
    Advance,
    Capture,
}

/// What workers pass without the lock, each time before the call of the core that the point names. A gate
/// may hold a worker back.
pub trait Gate {
    fn pass(&self, point: Point);
}

/// The gate that holds nobody back.
#[derive(Clone, Copy, Debug, PartialEq, Eq)]
pub struct Open;

impl Gate for Open {
    fn pass(&self, _point: Point) {}
}
