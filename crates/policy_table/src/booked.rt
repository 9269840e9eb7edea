ghost use Rattle.std.specs.Prelude.{◌≡◌, ◌⊎◌, ℕ, ◌<◌, ◌++◌, List, Option, IfOk, IfErr};
ghost use Rattle.policy_table.specs.Histories.{AddsOne};
ghost use Rattle.policy_table.specs.Changes.{Changes};
ghost use Rattle.policy_table.specs.declared.standing.Standing.{Standing};
ghost use Rattle.policy_table.specs.declared.standing.TheConstants.{PROCESSES};

use crate::standing::Standing;
use call_answers::NoMemory;

/// What the table asks of the object that it shares: a history, to which each call adds one entry
/// or none, and the standing of each process in a history.
pub trait Booked {
    type Call;

    type Reply;

    type Entry;

    // The meaning of an object is its history.
    ghost history: { Self → List Self.Entry };

    // What a call does: the history before it, the call, its reply and the history after it.
    ghost does: { List Self.Entry → Self.Call → Self.Reply → List Self.Entry → Type 0 };

    // What it means that a call found no memory at this history.
    ghost short: { List Self.Entry → Self.Call → Type 0 };

    // A call's condition on the history that it is made at.
    ghost may: { List Self.Entry → Self.Call → Type 0 };

    // How a process stands in a history.
    ghost standing: { List Self.Entry → ℕ → Standing };

    // The process whose standing the last call changed, with its standing since then.
    ghost changed: { Self → Option (ℕ × Standing) };

    /// Makes a call. At `NoMemory` the history is unchanged, and is one at which the call finds no memory.
    fn act(&mut self, call: Self::Call) -> Result<Self::Reply, NoMemory>
        requires { may (history self.old) call }
        ensures done { IfOk result (λ reply. does (history self.old) call reply (history self.new)) }
        ensures adds { IfOk result (λ reply. (history self.new ≡ history self.old)
            ⊎ AddsOne (history self.old) (history self.new)) }
        ensures none { IfErr result (λ error. history self.new ≡ history self.old) }
        ensures short { IfErr result (λ error. short (history self.old) call) }
        ensures changes { Changes (standing (history self.old)) (standing (history self.new)) (changed self.new) };

    /// The process whose standing the last `act` changed, with its standing now. `None` where it changed none.
    fn change(&self) -> Option<(u32, Standing)>
        ensures { result ≡ changed self.now };

    /// How a process stands in the history.
    fn standing_of(&self, process: u32) -> Standing
        requires { process < PROCESSES }
        ensures { result ≡ standing (history self.now) process };

    // A call's condition stays true as the history grows.
    ghost grows: { (seen later : List Self.Entry) (call : Self.Call) → may seen call → may (seen ++ later) call };
}
