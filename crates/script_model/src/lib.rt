//! Scripts, the pieces of a body, and the table of verdicts.
//!
//! A script names start pages and resources, whose documents are lists of actions. Its values keep the limits of the format.
//! What a history of it means is said in `history_rules`. This crate also gives out again the types of messages and entries,
//! and those of URLs, sites and origins.
#![tactic(auto)]

mod action;
mod early;
pub mod laws;
pub mod limits;
mod pages;
mod pieces;
mod plain;
mod post;
mod resource;
mod script;
mod verdict;

pub use action::{Action, FrameRef, RawBody, RawMessage};
pub use early::early_verdict;
pub use history_entry::{
    Body, EndHow, Entry, EntryKind, HopOf, LocalWhat, Message, Mode, PieceBytes, Policy, RawUrl,
    Reply, RequestText, Rule, ServiceName, Src, Target, equal_entries,
};
pub use http::StatusCode;
pub use mime_kind::{
    FieldText, FieldTextError, Head, Kind, ResourcePolicy, kind_of, resource_policy,
};
pub use page_origin::{
    HostText, NoMemory, OpaqueOrigin, Origin, PageUrl, Scheme, Site, TupleOrigin, UrlClass,
    UrlRefusal, UrlText, has_origin, join_url, page_url, same_origin, same_tuple, tuple_of,
};
pub use pages::PageUrls;
pub use pieces::Pieces;
pub use plain::plain_verdict;
pub use post::Posted;
pub use public_suffix::{Rules, RulesRefusal};
pub use resource::{Actions, Cuts, Resource, Resources};
pub use script::{Script, find};
pub use service_rule::{Asked, PlainStore, ServiceAnswer, ServiceRule};
pub use site_url::{SiteRules, same_site, site_of, site_of_origin};
pub use verdict::{Verdict, sniff_kind, sniffed_verdict};
