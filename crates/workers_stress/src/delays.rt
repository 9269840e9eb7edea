//! A gate that delays workers.

use browser_workers::{Gate, Point};
use std::sync::atomic::{AtomicU64, Ordering};
use std::thread::yield_now;

/// What is added at each draw: the golden ratio in 64 bits, after SplitMix64.
const GOLDEN: u64 = 0x9e37_79b9_7f4a_7c15;

/// The most turns that a worker gives up at one point.
const MOST_TURNS: u64 = 200;

/// Delays each worker at each point by as many turns as it draws.
#[derive(Drop)]
pub struct Delays {
    state: AtomicU64,
}

impl Delays {
    /// A gate whose draws begin at a seed.
    pub fn new(seed: u64) -> Self {
        Delays {
            state: AtomicU64::new(seed.wrapping_mul(GOLDEN)),
        }
    }

    /// The next draw, by SplitMix64.
    fn draw(&self) -> u64 {
        let state = self.state.fetch_add(GOLDEN, Ordering::SeqCst);
        let mixed = (state ^ (state >> 30)).wrapping_mul(0xbf58_476d_1ce4_e5b9);
        let mixed = (mixed ^ (mixed >> 27)).wrapping_mul(0x94d0_49bb_1331_11eb);
        mixed ^ (mixed >> 31)
    }
}

impl Gate for Delays {
    fn at(&self, _: u32, _: Point) {
        for _ in 0..self.draw() % MOST_TURNS {
            yield_now();
        }
    }
}
