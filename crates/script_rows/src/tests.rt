//! Rows of generated scripts, and of summaries.

mod documents;
mod responses;
mod shown;
mod summaries;
mod whole_scripts;
