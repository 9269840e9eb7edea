/// A walk upwards: the frame where it goes on, and how many may follow it.
#[derive(Clone, Copy)]
pub struct Climb {
    pub frame: u64,
    pub left: u64,
}
