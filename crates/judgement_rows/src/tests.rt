//! The judgement of messages at moments of histories: all of its rows, each standing of a process, and each count.

mod counts;
mod frames;
mod moments;
mod origins;
mod pages;
mod standings;
