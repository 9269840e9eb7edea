//! Lines of histories: their texts, and what is read of them.

mod codes;
mod readings;
mod texts;
