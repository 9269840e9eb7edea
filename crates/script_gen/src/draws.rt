//! The draws of a number.

ghost use Rattle.std.specs.Prelude.{◌≡◌, ◌<◌, ◌^◌, IfOk};
ghost use Rattle.script_gen.specs.Draws as spec;

use call_answers::NoMemory;
use std::alloc::Global;

/// How many states there are.
const STATES: u64 = 1 << 32;

/// By what a state is divided for its draw.
const LOW_HALF: u64 = 1 << 16;

/// The state behind a state.
#[tactic(auto, unfolding(crate::specs::Draws::moved))]
fn moved(state: u64) -> u64
    requires { state < 2 ^ 32 }
    ensures gives { result ≡ spec.moved state }
    ensures small { result < 2 ^ 32 }
{
    (state * 1_664_525 + 1_013_904_223) % STATES
}

/// The first draws of a number, so many. Each is below 2^16.
#[tactic(auto, using(crate::proofs::DrawSteps::first_state, crate::proofs::DrawSteps::next_state, crate::proofs::DrawSteps::no_draws, crate::proofs::DrawSteps::next_draw))]
pub fn draws_of(alloc: Global, number: u64, count: usize) -> Result<Vec<u32>, NoMemory>
    ensures { IfOk result (λ draws. draws.items ≡ spec.draws number count) }
{
    let mut draws = Vec::new(alloc);
    let mut state = number % STATES;
    for _ in 0..count {
        state = moved(state);
        draws.push((state / LOW_HALF) as u32)?;
    }
    Ok(draws)
}
