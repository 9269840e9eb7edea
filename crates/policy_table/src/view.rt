use std::collections::LinkedList;

/// What one pass knows of the table, for the proofs alone: no value of it is ever made.
pub struct View<E> {
    /// The beginning of the history that the pass has seen.
    pub seen: LinkedList<E>,
    /// The shorter of the two beginnings at the last meeting, which is a beginning of the history too.
    pub told: LinkedList<E>,
    /// The places in `seen` of the entries that the pass's own calls added.
    pub mine: LinkedList<u64>,
    /// Its part of the desk's 16 units of weight. A pass that another has taken in is spent, and has none.
    pub weight: u64,
    /// What it holds of the turn word: 0 without the turn, 1 with it, and 2 while the desk is opened.
    pub turn: u64,
}
