//! Feeds made-up bodies to the sniffer and counts its answers, so that `bench/sniff` can time it.
//!
//! Words: how many bodies of each shape, how many bytes a body has, and how many a piece.
#![tactic(auto)]

mod feeding;
mod plan;
mod shape;

use corb_sniff::Answer;
use feeding::sniff_in_pieces;
use plan::Plan;
use shape::SHAPES;
use std::{env, io};

fn main(rt: HostRuntime) -> io::Result<()> {
    let mut words = env::args(&rt)?;
    let _program = words.next();
    let Some(plan) = Plan::of(words.next(), words.next(), words.next()) else {
        return println!(rt; "usage: sniff_bench BODIES BYTES PIECE");
    };
    for shape in SHAPES {
        let body = shape.body(rt.alloc(), plan.bytes)?;
        let mut confirmed = 0u64;
        for _ in 0..plan.bodies {
            if let Answer::Confirmed(_) = sniff_in_pieces(shape.kind(), &body, plan.piece) {
                confirmed = confirmed.saturating_add(1);
            }
        }
        println!(rt; "{confirmed} of {} confirmed", plan.bodies)?;
    }
    Ok(())
}
