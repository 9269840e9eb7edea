//! The laws of the top call, each the contract of a function that only calls others of its kind.

ghost use Rattle.browser_cli.specs.Browse.{StatusesAreUnique};

use audit_run::audits_are_unique;

/// The command and the input alone decide with which status a command ends, where no read and no write fails and memory is
/// found.
#[tactic(auto, using(crate::proofs::OneStatus::one_status))]
pub fn statuses_are_unique()
    ensures { StatusesAreUnique }
{
    audits_are_unique();
}
