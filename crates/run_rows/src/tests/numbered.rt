//! Texts with parts that stand many times, for scripts and histories that are long.

use std::alloc::Global;
use std::test::Fail;

/// A part of a text, and how often it stands there. In the part `@` stands for the number of its repetition, from 0, and `^`
/// for the next number.
pub type Part = (&'static str, u32);

/// Appends a part for its repetition with this number.
fn append(text: &mut String, part: &str, number: u32) -> Result<(), Fail> {
    for letter in part.chars() {
        match letter {
            '@' => write!(text, "{number}")?,
            '^' => write!(text, "{}", u64::from(number) + 1)?,
            _ => text.push(letter)?,
        }
    }
    Ok(())
}

/// The text of parts.
pub fn text_of_parts(alloc: Global, parts: &[Part]) -> Result<String, Fail> {
    let mut text = String::new(alloc);
    for (part, count) in parts {
        for number in 0..*count {
            append(&mut text, part, number)?;
        }
    }
    Ok(text)
}
