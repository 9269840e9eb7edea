//! A script with its history.

ghost use Rattle.std.specs.Prelude.{◌≡◌, ◌≤◌, ◌++◌, IfOk, map, slice_get, unwrap_or};
ghost use Rattle.std.specs.List.{range_with_len};
ghost use Rattle.std.specs.Option.{option_to_list};
ghost use Rattle.script_model.specs.ScriptData.{starts};
ghost use Rattle.script_model.specs.declared.limits.TheConstants.{MAX_START_PAGES};
ghost use Rattle.history_rules.specs.Documents.{documents};
ghost use Rattle.history_rules.specs.Frames as frames;
ghost use Rattle.plain_facts.specs.Begun.{begun_frame};

use entry_facts::entries::{accepted, body_makes_navigation, makes_frame};
use entry_facts::frames::body_frame;
use script_model::{Entry, NoMemory, Script};
use std::alloc::Global;
use std::marker::Model;

/// A script and a history of it, with the frame of each navigation found once.
#[derive(Drop)]
pub struct PlainFacts<'a> {
    script: &'a Script,
    entries: &'a [Entry],
    frames: Vec<u64>,
}

impl<'a> Model for PlainFacts<'a> {
    ghost use Rattle.std.specs.Prelude.{◌≡◌, map};
    ghost use Rattle.history_rules.specs.Documents.{documents};
    ghost use Rattle.history_rules.specs.Frames.{frame_of};
    ghost use Rattle.plain_facts.specs.HistoryOf.{HistoryOf};

    ghost Value = { HistoryOf };

    ghost view = { λ f. record { script = f.script.now; entries = f.entries.now } };

    ghost invariant = { λ f. f.frames.items ≡ map (frame_of f.script.now f.entries.now) (documents f.script.now f.entries.now) };
}

// The frames of the start pages.
fn start_frames(alloc: Global, script: &Script) -> Result<Vec<u64>, NoMemory>
    ensures { IfOk result (λ frames. frames.items ≡ range_with_len 0 (starts script.now)) }
{
    let mut frames = Vec::new(alloc);
    for page in 0..script.start_count() as u64 {
        frames.push(page)?;
    }
    Ok(frames)
}

// The frame of the navigation that an entry begins, where a frame that it makes would have this number.
fn begun_frame(entry: &Entry, made: u64) -> Option<u64>
    ensures { result ≡ begun_frame made entry.now }
{
    let message = accepted(entry)?;
    if body_makes_navigation(&message.body) {
        Some(body_frame(&message.body, made))
    } else {
        None
    }
}

// A frame behind the others, if there is one.
fn push_begun(found: &mut Vec<u64>, frame: Option<u64>) -> Result<(), NoMemory>
    ensures { IfOk result (λ _. found.new.items ≡ found.old.items ++ option_to_list frame) }
{
    if let Some(frame) = frame {
        found.push(frame)?;
    }
    Ok(())
}

// The frame of each navigation.
fn frames_of(alloc: Global, script: &Script, entries: &[Entry]) -> Result<Vec<u64>, NoMemory>
    ensures { IfOk result (λ found. found.items ≡ map (frames.frame_of script.now entries.now) (documents script.now entries.now)) }
{
    let mut found = start_frames(alloc, script)?;
    let mut made = script.start_count() as u64;
    for entry in entries {
        push_begun(&mut found, begun_frame(entry, made))?;
        made += u64::from(makes_frame(entry));
    }
    Ok(found)
}

// The frame at a place, and 0 past the end.
fn frame_at(frames: &[u64], place: u64) -> u64
    ensures { result ≡ unwrap_or (slice_get frames.now place) 0 }
{
    match frames.get(place as usize) {
        Some(frame) => *frame,
        None => 0,
    }
}

impl<'a> PlainFacts<'a> {
    /// The facts of a history of a script.
    pub fn new(alloc: Global, script: &'a Script, entries: &'a [Entry]) -> Result<Self, NoMemory>
        ensures { IfOk result (λ facts. facts ≡ record { script = script.now; entries = entries.now }) }
    {
        let frames = frames_of(alloc, script, entries)?;
        Ok(PlainFacts {
            script,
            entries,
            frames,
        })
    }

    /// The script.
    pub fn script(&self) -> &'a Script
        ensures { result.now ≡ self.now.script }
    {
        self.script
    }

    /// The entries of the history.
    pub fn entries(&self) -> &'a [Entry]
        ensures { result.now ≡ self.now.entries }
    {
        self.entries
    }

    /// How many start pages there are.
    pub fn start_count(&self) -> u64
        ensures count { result ≡ starts self.now.script }
        ensures few { starts self.now.script ≤ MAX_START_PAGES }
    {
        self.script.start_count() as u64
    }

    /// How many navigations began; the start navigations count from the beginning.
    pub fn navigations_made(&self) -> u64
        ensures { result ≡ frames.navigations_made self.now.script self.now.entries }
    {
        self.frames.len() as u64
    }

    /// The frame of a navigation, and so of its document.
    pub fn frame_of(&self, navigation: u64) -> u64
        ensures { result ≡ frames.frame_of self.now.script self.now.entries navigation }
    {
        frame_at(self.frames.as_slice(), navigation)
    }
}
