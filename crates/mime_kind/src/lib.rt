//! The kind of a response's body and its resource policy, by its header fields: what read blocking looks at before it
//! looks at bytes.
//!
//! Media types are read as the MIME Sniffing Standard and RFC 9110 have them, in a profile of our own: the last
//! `Content-Type` counts, what stands behind its first `;` doesn't, and the table of kinds is that of Chromium's
//! explainer of Cross-Origin Read Blocking. `nosniff` is read as in the Fetch Standard. `Cross-Origin-Resource-Policy` is
//! that standard's header, and that it is read by the exact text of its joined values is our own. Reading takes no memory.
#![tactic(auto)]

mod field_text;
mod head;
mod kind;
mod media_type;
mod policy;
mod texts;
mod type_options;
mod values;

pub use field_text::{FieldText, FieldTextError};
pub use head::Head;
pub use kind::{Kind, kind_of};
pub use policy::{ResourcePolicy, resource_policy};
pub use texts::stripped;
pub use type_options::nosniff;
pub use values::is_joined;

#[cfg(test)]
mod tests;
