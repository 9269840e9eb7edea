/// The processes that a table has rows for: those with numbers below this one.
pub const PROCESSES: u32 = 1024;

/// How a process stands in the policy table.
#[derive(Clone, Copy, Debug, PartialEq, Eq)]
pub enum Standing {
    /// It was never started.
    Absent,
    /// It was started, and is locked to no site yet.
    Warm,
    /// It is locked to the site of this number.
    Locked(u32),
    /// It has exited or was killed.
    Dead,
}
