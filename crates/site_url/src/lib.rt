//! The sites of URLs and origins.
//!
//! A site is a scheme with a registrable domain, by suffix rules in the format of the Public Suffix List, or with the
//! whole host where that is an IP address or has no registrable domain; or it is one isolated origin of the rules. Each call
//! answers exactly the site that `specs/Sites.antt` defines.
#![tactic(auto)]

mod address;
mod site_rules;
mod sites;

pub use site_rules::SiteRules;
pub use sites::{same_site, site_of, site_of_origin};

#[cfg(test)]
mod tests;
