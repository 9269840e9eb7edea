//! Bodies, and where they are cut.

ghost use Rattle.std.specs.Prelude.{◌≡◌, ◌≤◌, ◌<◌, IfOk, length};
ghost use Rattle.hex.specs.Hex.{decode_of};
ghost use Rattle.serde_json.specs.View.{view};
ghost use Rattle.script_model.specs.ResourceData.{IsCuts, IsFault};
ghost use Rattle.script_input.specs.Answers.{Gives, GivesBy};
ghost use Rattle.script_input.specs.Bodies as spec;

use crate::list::{ItemReader, list_at};
use crate::object::optional;
use crate::refusal::{PAST_LIMIT, ScriptStop, WRONG_SHAPE, refused};
use crate::text::{string_at, text_within};
use crate::value::{Integer, Reader};
use bytes::Bytes;
use hex::FromHexError;
use script_model::Cuts;
use script_model::limits::{MAX_BODY, MAX_CUTS};
use serde_json::Value;
use std::alloc::Global;

/// `body` and `body_hex` are not both there.
#[tactic(auto, unfolding(crate::specs::Bodies::one_body))]
pub fn one_body(alloc: Global, value: &Value) -> Result<(), ScriptStop>
    ensures { Gives result (spec.one_body (view value.now)) }
{
    if value.get("body").is_some() && value.get("body_hex").is_some() {
        return Err(refused(alloc, WRONG_SHAPE));
    }
    Ok(())
}

/// A body as the UTF-8 of a string.
struct TextBody;

impl Reader for TextBody {
    type Read = Bytes;

    ghost use Rattle.std.specs.Prelude.{◌≤◌, length};
    ghost use Rattle.script_input.specs.Bodies.{max_body};
    ghost use Rattle.script_input.specs.Values as values;

    ghost reading = { λ _. values.text_within 0 max_body };

    ghost keeps = { λ _ body. length body ≤ max_body };

    fn read(&self, alloc: Global, value: &Value) -> Result<Bytes, ScriptStop> {
        let text = text_within(alloc, 0, MAX_BODY, value)?;
        Ok(Bytes::copy_from_slice(alloc, text.as_bytes())?)
    }
}

fn decoded(alloc: Global, text: &str) -> Result<Vec<u8>, ScriptStop>
    ensures gives { GivesBy (λ bytes. bytes.items) result (spec.decoded (decode_of text.now)) }
    ensures short { IfOk result (λ bytes. length bytes.items ≤ spec.max_body) }
{
    match hex::decode(alloc, text) {
        Ok(bytes) if bytes.len() <= MAX_BODY => Ok(bytes),
        Ok(_) => Err(refused(alloc, PAST_LIMIT)),
        Err(FromHexError::OutOfMemory) => Err(ScriptStop::NoMemory),
        Err(FromHexError::OddLength) => Err(refused(alloc, WRONG_SHAPE)),
        Err(FromHexError::InvalidHexCharacter { .. }) => Err(refused(alloc, WRONG_SHAPE)),
        Err(FromHexError::InvalidStringLength) => Err(refused(alloc, WRONG_SHAPE)),
    }
}

/// A body as hexadecimal digits.
struct HexBody;

impl Reader for HexBody {
    type Read = Bytes;

    ghost use Rattle.std.specs.Prelude.{◌≤◌, length};
    ghost use Rattle.script_input.specs.Bodies as spec;

    ghost reading = { λ _. spec.hex_body_at };

    ghost keeps = { λ _ body. length body ≤ spec.max_body };

    #[tactic(auto, unfolding(crate::specs::Bodies::hex_body_at))]
    fn read(&self, alloc: Global, value: &Value) -> Result<Bytes, ScriptStop> {
        let text = string_at(alloc, value)?;
        let bytes = decoded(alloc, text)?;
        Ok(Bytes::from_vec(bytes)?)
    }
}

/// The bytes of `body` or of `body_hex`, none where neither is there.
#[tactic(auto, unfolding(crate::specs::Bodies::body_in))]
fn body_in(alloc: Global, value: &Value) -> Result<Bytes, ScriptStop>
    ensures gives { Gives result (spec.body_in (view value.now)) }
    ensures short { IfOk result (λ body. length body ≤ spec.max_body) }
{
    let text = optional(alloc, "body", &TextBody, value)?;
    let bytes = optional(alloc, "body_hex", &HexBody, value)?;
    Ok(bytes.unwrap_or(text.unwrap_or(Bytes::new())))
}

/// One cut of a body of so many bytes.
#[derive(Clone, Copy)]
struct CutOf {
    size: u32,
}

#[tactic(auto, unfolding(crate::specs::Bodies::cut_at))]
fn cut_at(alloc: Global, size: u32, before: &[u32], value: &Value) -> Result<u32, ScriptStop>
    ensures gives { Gives result (spec.cut_at size before.now (view value.now)) }
    ensures above { IfOk result (λ cut. spec.last_cut before.now < cut) }
    ensures within { IfOk result (λ cut. cut < size) }
{
    let last = before.last().copied().unwrap_or(0);
    match value.as_u64() {
        Some(cut) if u64::from(last) < cut && cut < u64::from(size) => Ok(cut as u32),
        Some(_) => Err(refused(alloc, PAST_LIMIT)),
        None => Err(refused(alloc, WRONG_SHAPE)),
    }
}

impl ItemReader for CutOf {
    type Item = u32;

    ghost use Rattle.script_input.specs.Bodies as spec;
    ghost use Rattle.script_input.specs.ForProofs.{AreCuts};

    ghost item_reading = { λ body. spec.cut_at body.size };

    ghost listed = { λ body cuts. AreCuts body.size cuts };

    #[tactic(auto, using(crate::proofs::CutLimits::one_more_cut))]
    fn item(&self, alloc: Global, before: &[u32], value: &Value) -> Result<u32, ScriptStop> {
        cut_at(alloc, self.size, before, value)
    }
}

/// The cuts of a body of so many bytes.
#[derive(Clone, Copy)]
struct CutsOf {
    size: u32,
}

impl Reader for CutsOf {
    type Read = Cuts;

    ghost use Rattle.script_model.specs.ResourceData.{IsCuts};
    ghost use Rattle.script_input.specs.Bodies as spec;

    ghost reading = { λ body. spec.cuts_at body.size };

    ghost keeps = { λ body cuts. IsCuts body.size cuts };

    #[tactic(auto, using(crate::proofs::CutLimits::no_cuts, crate::proofs::CutLimits::are_cuts))]
    fn read(&self, alloc: Global, value: &Value) -> Result<Cuts, ScriptStop> {
        let cuts = list_at(alloc, &CutOf { size: self.size }, MAX_CUTS, value)?;
        Ok(Cuts::from_vec(cuts))
    }
}

/// The cuts of a body of so many bytes, none where they are left out.
#[tactic(auto, unfolding(crate::specs::Bodies::cuts_in), using(crate::proofs::CutLimits::no_cuts_at_all))]
fn cuts_in(alloc: Global, size: u32, value: &Value) -> Result<Cuts, ScriptStop>
    ensures gives { Gives result (spec.cuts_in size (view value.now)) }
    ensures keeps { IfOk result (IsCuts size) }
{
    let cuts = optional(alloc, "cuts", &CutsOf { size }, value)?;
    Ok(cuts.unwrap_or(Cuts::from_vec(Vec::new(alloc))))
}

/// A body, with its cuts and where it breaks off.
#[derive(Drop)]
pub struct Delivery {
    pub body: Bytes,
    pub cuts: Cuts,
    pub fail_after: Option<u32>,
}

/// How the body of a resource is delivered.
#[tactic(auto, unfolding(crate::specs::Bodies::delivery_in))]
pub fn delivery_in(alloc: Global, value: &Value) -> Result<Delivery, ScriptStop>
    ensures gives { Gives result (spec.delivery_in (view value.now)) }
    ensures short { IfOk result (λ delivery. length delivery.body ≤ spec.max_body) }
    ensures cuts { IfOk result (λ delivery. IsCuts (length delivery.body) delivery.cuts) }
    ensures fault { IfOk result (λ delivery. IsFault (length delivery.body) delivery.fail_after) }
{
    let body = body_in(alloc, value)?;
    let size = body.len() as u32;
    let cuts = cuts_in(alloc, size, value)?;
    let within = Integer {
        least: 0,
        most: size,
    };
    let fail_after = optional(alloc, "fail_after", &within, value)?;
    Ok(Delivery {
        body,
        cuts,
        fail_after,
    })
}
