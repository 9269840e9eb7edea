//! A wire that carries a body in memory.

ghost use Rattle.std.specs.Prelude.{◌≡◌, ◌≤◌, ◌<◌, ◌↔◌, ◌+◌, ◌-◌, ◌∷◌, [], true, false, count_by, drop, length, nat_lt, take, Some, IfSome, IfOk, OnErr, IsErr};
ghost use Rattle.std.specs.Option.{is_some};
ghost use Rattle.browser_io.specs.Faults.{count_after};
ghost use Rattle.browser_io.specs.Scripted.{IsCutFrom, cuts_below, pieces_from, pieces_of};

use crate::cursor::copy_front;
use crate::failed::Failed;
use crate::wire::{MAX_PIECE, Wire};
use std::marker::Model;

/// A body in memory, cut into pieces, of which each read hands over one. After them it ends, or fails at every read.
#[derive(Drop)]
pub struct ScriptWire<'a> {
    // What is left of the bytes that it carries, from this place of the body on, with the cuts behind that place.
    rest: &'a [u8],
    from: usize,
    cuts: &'a [u32],
    fails: bool,
    faults: u64,
}

impl<'a> Model for ScriptWire<'a> {
    ghost use Rattle.std.specs.Prelude.{◌+◌, ◌≤◌, length};
    ghost use Rattle.browser_io.specs.Scripted.{ScriptedWire, IsCutFrom, pieces_from};
    ghost use Rattle.browser_io.specs.declared.wire.TheConstants.{MAX_PIECE};

    ghost Value = { ScriptedWire };

    ghost view = { λ w. record {
      left = pieces_from w.from w.cuts.now w.rest.now;
      fails = w.fails;
      faults = w.faults;
    } };

    ghost invariant = { λ w. (w.from + length w.rest.now ≤ MAX_PIECE)
        × IsCutFrom w.from (w.from + length w.rest.now) w.cuts.now };
}

/// How many cuts are below the end of what is carried.
fn count_below(cuts: &[u32], end: usize) -> usize
    ensures { result ≡ count_by (λ c. nat_lt c end) cuts.now }
{
    cuts.iter().filter(|cut| (**cut as usize) < end).count()
}

/// The cuts below the end of what is carried, of the cuts of a body.
fn cuts_within(cuts: &[u32], size: usize, end: usize) -> &[u32]
    requires { IsCutFrom 0 size cuts.now }
    ensures first { result.now ≡ cuts_below end cuts.now }
    ensures rising { IsCutFrom 0 end result.now }
{
    let below = count_below(cuts, end);
    cuts.split_at(below).0
}

/// Where the first piece of the bytes from a place on ends, and the cuts behind its end.
#[tactic(auto, using(crate::proofs::Cutting::piece_before, crate::proofs::Cutting::piece_last))]
fn next_cut<'a>(from: usize, cuts: &'a [u32], rest: &[u8]) -> (usize, &'a [u32])
    requires some { 0 < length rest.now }
    requires short { from + length rest.now ≤ MAX_PIECE }
    requires rising { IsCutFrom from (from + length rest.now) cuts.now }
    ensures above { from < result.0 }
    ensures within { result.0 ≤ from + length rest.now }
    ensures rising { IsCutFrom result.0 (from + length rest.now) result.1.now }
    ensures piece { pieces_from from cuts.now rest.now
        ≡ take (result.0 - from) rest.now ∷ pieces_from result.0 result.1.now (drop (result.0 - from) rest.now) }
{
    match cuts {
        [cut, later @ ..] => (*cut as usize, later),
        [] => (from + rest.len(), cuts),
    }
}

impl<'a> ScriptWire<'a> {
    /// A wire that carries `body`, cut at the places `cuts`. Where `fail_after` is there, it carries only that many first
    /// bytes, cut at the cuts below their end, and fails after them. No bytes are no piece.
    pub fn new(body: &'a [u8], cuts: &'a [u32], fail_after: Option<u32>) -> ScriptWire<'a>
        requires short { length body.now ≤ MAX_PIECE }
        requires cuts { IsCutFrom 0 (length body.now) cuts.now }
        requires fault { IfSome fail_after (λ sent. sent ≤ length body.now) }
        ensures { result ≡ record { left = pieces_of body.now cuts.now fail_after; fails = is_some fail_after; faults = 0 } }
    {
        let rest = match fail_after {
            Some(sent) => body.split_at(sent as usize).0,
            None => body,
        };
        ScriptWire {
            rest,
            from: 0,
            cuts: cuts_within(cuts, body.len(), rest.len()),
            fails: fail_after.is_some(),
            faults: 0,
        }
    }

    /// Hands over the next piece, and says how many bytes it has.
    fn hand_over(&mut self, buf: &mut [u8]) -> usize
        requires room { MAX_PIECE ≤ length buf.old }
        requires some { 0 < length self.old.left }
        ensures bound { result ≤ length buf.new }
        ensures some { 0 < result }
        ensures piece { self.old.left ≡ take result buf.new ∷ self.new.left }
        ensures fails { self.new.fails ≡ self.old.fails }
        ensures faults { self.new.faults ≡ self.old.faults }
    {
        let (end, later) = next_cut(self.from, self.cuts, self.rest);
        let count = copy_front(self.rest, buf, end - self.from);
        let (_, rest) = self.rest.split_at(count);
        self.rest = rest;
        self.from = end;
        self.cuts = later;
        count
    }
}

impl<'a> Wire for ScriptWire<'a> {
    ghost left = { λ w. Some w.left };

    ghost fails = { λ w. w.fails };

    ghost faults = { λ w. w.faults };

    #[tactic(auto, using(crate::proofs::Cutting::some_left))]
    fn read(&mut self, buf: &mut [u8]) -> Result<usize, Failed>
        requires { MAX_PIECE ≤ length buf.old }
        ensures fails { IsErr result ↔ (self.old.left ≡ []) × (self.old.fails ≡ true) }
        ensures bound { IfOk result (λ n. n ≤ length buf.new) }
        ensures piece { IfOk result (λ n. 0 < n → self.old.left ≡ take n buf.new ∷ self.new.left) }
        ensures end { IfOk result (λ n. n ≡ 0 → (self.old.left ≡ []) × (self.old.fails ≡ false)) }
        ensures over { IfOk result (λ n. n ≡ 0 → self.new ≡ self.old) }
        ensures failing { OnErr result ((self.old.left ≡ []) × (self.old.fails ≡ true)) }
        ensures unmoved { OnErr result (self.new.left ≡ self.old.left) }

        ensures later { self.old.faults ≤ self.new.faults }
        ensures faults { self.new.faults ≡ count_after self.old.faults result }
        ensures steady { self.new.fails ≡ self.old.fails }
    {
        if self.rest.is_empty() {
            if self.fails {
                self.faults = self.faults.saturating_add(1);
                return Err(Failed);
            }
            return Ok(0);
        }
        Ok(self.hand_over(buf))
    }
}
