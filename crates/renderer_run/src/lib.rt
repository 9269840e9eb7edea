//! From the actions of a document to its messages.
//!
//! An action names frames as its document sees them, and says nothing of origins: what the document sees fills these in. A
//! forged message says whatever a compromised renderer could. `message_of` answers exactly the definition `act_in` of
//! `history_rules`.
#![tactic(auto)]

mod actions;

pub use actions::message_of;
pub use history_rules::{Act, FrameList, Sight};
