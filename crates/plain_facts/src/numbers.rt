//! Numbers as entries hold them. A history that comes to a number past 2^32 - 1 is longer than any memory.

ghost use Rattle.std.specs.Prelude.{◌≡◌, IfOk};

use script_model::NoMemory;

/// A number as an entry holds it.
pub fn entry_number(number: u64) -> Result<u32, NoMemory>
    ensures { IfOk result (λ small. small ≡ number) }
{
    match u32::try_from(number) {
        Ok(small) => Ok(small),
        Err(_) => Err(NoMemory),
    }
}

/// A number as an entry holds it, where there is one.
pub fn optional_number(number: Option<u64>) -> Result<Option<u32>, NoMemory>
    ensures { IfOk result (λ small. small ≡ number) }
{
    match number {
        Some(number) => Ok(Some(entry_number(number)?)),
        None => Ok(None),
    }
}
