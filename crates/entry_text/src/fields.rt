//! Fields: words, numbers, texts and rules. Each but `put` and `put_decimal` begins with its space.

ghost use Rattle.std.specs.Prelude.{◌≡◌, ◌++◌, OnOk};
ghost use Rattle.std.specs.Fmt.{decimal};
ghost use Rattle.history_entry.specs.RuleText.{rule_text};
ghost use Rattle.entry_text.specs.Lines as lines;
ghost use Rattle.entry_text.specs.Printing.{GrowsTo};

use history_entry::Rule;
use page_origin::NoMemory;
use std::alloc::Global;

#[tactic(auto, using(crate::proofs::Growing::grows_by, crate::proofs::Growing::grows_by_none))]
pub fn put(out: &mut Vec<u8>, piece: &[u8]) -> Result<(), NoMemory>
    ensures text { OnOk result (out.new.items ≡ out.old.items ++ piece.now) }
    ensures kept { GrowsTo out.old.items out.new.items }
{
    out.extend_from_slice(piece)?;
    Ok(())
}

pub fn put_decimal(alloc: Global, out: &mut Vec<u8>, number: u32) -> Result<(), NoMemory>
    ensures text { OnOk result (out.new.items ≡ out.old.items ++ decimal number) }
    ensures kept { GrowsTo out.old.items out.new.items }
{
    let digits = number.to_string(alloc)?;
    put(out, digits.as_bytes())
}

pub fn put_number(alloc: Global, out: &mut Vec<u8>, number: u32) -> Result<(), NoMemory>
    ensures text { OnOk result (out.new.items ≡ out.old.items ++ lines.number number) }
    ensures kept { GrowsTo out.old.items out.new.items }
{
    put(out, b" ")?;
    put_decimal(alloc, out, number)
}

pub fn put_text(out: &mut Vec<u8>, text: &str) -> Result<(), NoMemory>
    ensures text { OnOk result (out.new.items ≡ out.old.items ++ lines.field text.now) }
    ensures kept { GrowsTo out.old.items out.new.items }
{
    put(out, b" ")?;
    put(out, text.as_bytes())
}

pub fn put_rule(out: &mut Vec<u8>, rule: Rule) -> Result<(), NoMemory>
    ensures text { OnOk result (out.new.items ≡ out.old.items ++ lines.field (rule_text rule)) }
    ensures kept { GrowsTo out.old.items out.new.items }
{
    put_text(out, rule.code())
}

#[tactic(auto, unfolding(crate::specs::Lines::hex_text))]
pub fn put_hex(alloc: Global, out: &mut Vec<u8>, bytes: &[u8]) -> Result<(), NoMemory>
    ensures text { OnOk result (out.new.items ≡ out.old.items ++ lines.field (lines.hex_text bytes.now)) }
    ensures kept { GrowsTo out.old.items out.new.items }
{
    if bytes.is_empty() {
        return put(out, b" -");
    }
    let digits = hex::encode(alloc, bytes)?;
    put_text(out, digits.as_str())
}
