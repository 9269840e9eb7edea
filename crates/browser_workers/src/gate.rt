//! Where a caller is told what the workers do.

use browser_core::TaskKey;
use policy_table::Standing;

/// What a worker is about to do, or has done.
#[derive(Clone, Copy, Debug, PartialEq, Eq)]
pub enum Point {
    /// It was handed the task of this key.
    Claimed(TaskKey),
    /// It is about to take a step of the load of this request, whose process stands so.
    Step(u32, Standing),
    /// It has brought back the last outcome of the task of this key.
    Returned(TaskKey),
}

/// Is told of each point that a worker comes to, in the thread of that worker, while it has no turn. Workers are numbered from 0.
pub trait Gate {
    fn at(&self, worker: u32, point: Point);
}

/// Does nothing.
#[derive(Clone, Copy, Debug, Drop)]
pub struct NoGate;

impl Gate for NoGate {
    fn at(&self, _: u32, _: Point) {}
}
