//! Refusals, and how they are spelled.

ghost use Rattle.std.specs.Prelude.{◌≡◌, ◌∷◌, ◌++◌, [], IfOk, Some};
ghost use Rattle.script_input.specs.declared.refusal.ScriptStop.TheVariants as stops;
ghost use Rattle.script_input.specs.Refusals as spec;
ghost use Rattle.script_input.specs.ForProofs.{IsBehind};

use script_model::NoMemory;
use std::alloc::{AllocError, AllocFailed, Global};
use std::error::Error;
use std::fmt;
use std::marker::Model;
use thiserror::Error as ErrorText;

/// X1: the bytes are not JSON.
pub const NOT_JSON: u8 = 1;
/// X2: a wrong shape, a missing or unknown key, or a wrong word.
pub const WRONG_SHAPE: u8 = 2;
/// X3: a URL that its place doesn't take.
pub const WRONG_URL: u8 = 3;
/// X4: a bad suffix rule.
pub const BAD_RULE: u8 = 4;
/// X5: a bad name or value of a header.
pub const BAD_HEADER: u8 = 5;
/// X6: a limit is passed.
pub const PAST_LIMIT: u8 = 6;
/// X7: two resources with one key.
pub const SAME_KEY: u8 = 7;

/// Where in a script a refusal stands: `/` and a key or an index, for each step. Empty for the whole script.
#[derive(Debug, Drop)]
pub struct PathText {
    text: String,
}

impl Model for PathText {
    ghost use Rattle.std.specs.Prelude.{ℕ, List, string_bytes};

    ghost Value = { List ℕ };

    ghost view = { λ p. string_bytes p.text };
}

impl PathText {
    /// The path of the whole script.
    pub fn root(alloc: Global) -> Self
        ensures { result ≡ [] }
    {
        PathText {
            text: String::new(alloc),
        }
    }

    pub fn as_str(&self) -> &str
        ensures { result.now ≡ self.now }
    {
        self.text.as_str()
    }

    /// The path of the same place, seen from one step further up.
    fn behind(&self, alloc: Global, step: &str) -> Result<Self, AllocError>
        ensures { IfOk result (λ path. path ≡ 47 ∷ step.now ++ self.now) }
    {
        let rest = self.as_str();
        let text = format!(in alloc; "/{step}{rest}")?;
        Ok(PathText { text })
    }
}

/// Why a script is refused, and where.
#[derive(Debug, Drop)]
pub struct Refusal {
    /// The number of the code, as 2 for X2.
    pub code: u8,
    pub path: PathText,
    /// The line of a suffix rule, from 1, and else 0.
    pub line: u32,
}

impl Refusal {
    /// A refusal of the whole script.
    pub fn whole(alloc: Global, code: u8) -> Self
        ensures { result ≡ spec.refusal code }
    {
        Refusal {
            code,
            path: PathText::root(alloc),
            line: 0,
        }
    }

    /// The refusal of the suffix rule on a line.
    pub(crate) fn of_rule(alloc: Global, line: u32) -> Self
        ensures { result ≡ spec.rule_refusal line }
    {
        Refusal {
            code: BAD_RULE,
            path: PathText::root(alloc),
            line,
        }
    }

    fn behind(self, alloc: Global, step: &str) -> Result<Self, AllocError>
        ensures { IfOk result (λ refusal. refusal ≡ spec.behind step.now self) }
    {
        Ok(Refusal {
            code: self.code,
            path: self.path.behind(alloc, step)?,
            line: self.line,
        })
    }
}

/// A path behind a space, and nothing of an empty one.
#[derive(Drop)]
struct PathPart<'a>(&'a str);

impl fmt::Display for PathPart<'_> {
    ghost output = { λ path. Some (spec.path_part path.0.now) };

    fn fmt<W: fmt::Write>(&self, f: &mut fmt::Formatter<W>) -> fmt::Result {
        if self.0.is_empty() {
            return Ok(());
        }
        write!(f, " {}", self.0)
    }
}

/// The number of a line, and nothing of 0.
#[derive(Drop)]
struct LinePart(u32);

impl fmt::Display for LinePart {
    ghost output = { λ line. Some (spec.line_part line.0) };

    fn fmt<W: fmt::Write>(&self, f: &mut fmt::Formatter<W>) -> fmt::Result {
        if self.0 == 0 {
            return Ok(());
        }
        write!(f, " line {}", self.0)
    }
}

/// `refused X2 /start/0`, `refused X4 line 3` or `refused X1`.
impl fmt::Display for Refusal {
    ghost output = { λ refusal. Some (spec.refusal_text refusal) };

    #[tactic(auto, unfolding(crate::specs::Refusals::refusal_text))]
    fn fmt<W: fmt::Write>(&self, f: &mut fmt::Formatter<W>) -> fmt::Result {
        let path = PathPart(self.path.as_str());
        let line = LinePart(self.line);
        write!(f, "refused X{}{path}{line}", self.code)
    }
}

impl Error for Refusal {}

/// Why bytes gave no script.
#[derive(Debug, Drop, ErrorText)]
pub enum ScriptStop {
    /// The bytes are no script, for the first of their faults.
    #[error("{0}")]
    Refused(Refusal),
    #[error("{}", script_model::NoMemory)]
    NoMemory,
}

impl From<AllocError> for ScriptStop {
    ghost from_gives = { λ _ stop. stop ≡ stops.NoMemory };

    fn from(_: AllocError) -> Self {
        ScriptStop::NoMemory
    }
}

impl<T: Drop> From<AllocFailed<T>> for ScriptStop {
    ghost from_gives = { λ _ stop. stop ≡ stops.NoMemory };

    fn from(_: AllocFailed<T>) -> Self {
        ScriptStop::NoMemory
    }
}

impl From<NoMemory> for ScriptStop {
    ghost from_gives = { λ _ stop. stop ≡ stops.NoMemory };

    fn from(_: NoMemory) -> Self {
        ScriptStop::NoMemory
    }
}

/// The stop at a value that is refused itself.
pub(crate) fn refused(alloc: Global, code: u8) -> ScriptStop
    ensures { result ≡ stops.Refused (spec.refusal code) }
{
    ScriptStop::Refused(Refusal::whole(alloc, code))
}

/// A stop below a step of the path.
pub(crate) fn behind(alloc: Global, step: &str, stop: ScriptStop) -> ScriptStop
    ensures { IsBehind step.now stop result }
{
    match stop {
        ScriptStop::NoMemory => ScriptStop::NoMemory,
        ScriptStop::Refused(refusal) => match refusal.behind(alloc, step) {
            Ok(refusal) => ScriptStop::Refused(refusal),
            Err(_) => ScriptStop::NoMemory,
        },
    }
}
