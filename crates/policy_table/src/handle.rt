ghost use Rattle.std.specs.Prelude.{◌≡◌, ℕ, ◌<◌};
ghost use Rattle.policy_table.specs.declared.standing.TheConstants.{PROCESSES};

use std::marker::Model;

/// The row of a process. Contracts see it as the number of the process, which is below 1,024.
#[derive(Drop)]
pub struct Handle {
    pub(crate) process: u32,
}

impl Model for Handle {
    ghost Value = { ℕ };

    ghost view = { λ handle. handle.process };

    ghost invariant = { λ handle. handle.process < PROCESSES };
}
