//! Frames: who made them, their parents, pages, groups and sandboxes.

ghost use Rattle.std.specs.Prelude.{◌≡◌, ◌<◌, ◌∷◌, IfSome, None, Some, count_by, filter, option_and_then, slice_get, suc};
ghost use Rattle.std.specs.List.{last_or, list_any};
ghost use Rattle.std.specs.Option.{option_copied};
ghost use Rattle.history_rules.specs.Entries.{accepted, makes_frame, makes_navigation, opens};
ghost use Rattle.history_rules.specs.Frames as frames;
ghost use Rattle.plain_facts.specs.Climbs.{lineage_from, makers_from};

use crate::climb::Climb;
use crate::facts::PlainFacts;
use entry_facts::entries::{accepted, makes_frame, makes_navigation};
use entry_facts::frames::{adder_in, body_sandboxes, opener_in};
use entry_facts::orders::opens;
use script_model::{Entry, Message};

// How many frames were made by messages.
fn frame_makers(entries: &[Entry]) -> usize
    ensures { result ≡ count_by makes_frame entries.now }
{
    let mut count = 0;
    for entry in entries {
        if makes_frame(entry) {
            count += 1;
        }
    }
    count
}

// Whether a start page was opened.
pub(crate) fn was_opened(entries: &[Entry], page: u64) -> bool
    ensures { result ≡ list_any (opens page) entries.now }
{
    entries.iter().any(|entry| opens(entry, page))
}

// The message with this number among those that made frames.
fn frame_maker_at(entries: &[Entry], index: u64) -> Option<&Message>
    ensures { option_copied result ≡ option_and_then accepted (slice_get (filter makes_frame entries.now) index) }
{
    let mut left = index;
    for entry in entries {
        if makes_frame(entry) {
            if left == 0 {
                return accepted(entry);
            }
            left -= 1;
        }
    }
    None
}

// The message with this number among those that began navigations.
fn navigation_maker_at(entries: &[Entry], index: u64) -> Option<&Message>
    ensures { option_copied result ≡ option_and_then accepted (slice_get (filter makes_navigation entries.now) index) }
{
    let mut left = index;
    for entry in entries {
        if makes_navigation(entry) {
            if left == 0 {
                return accepted(entry);
            }
            left -= 1;
        }
    }
    None
}

impl<'a> PlainFacts<'a> {
    /// How many frames were made; the start frames count from the beginning.
    pub fn frames_made(&self) -> u64
        ensures { result ≡ frames.frames_made self.now.script self.now.entries }
    {
        self.start_count() + frame_makers(self.entries()) as u64
    }

    /// Whether a frame was made: a start frame when its page is opened.
    #[tactic(auto, unfolding(history_rules::specs::Frames::was_made))]
    pub fn was_made(&self, frame: u64) -> bool
        ensures { result ≡ frames.was_made self.now.script self.now.entries frame }
    {
        if frame < self.start_count() {
            was_opened(self.entries(), frame)
        } else {
            frame < self.frames_made()
        }
    }

    /// The message that made a frame; none made a start frame.
    #[tactic(auto, unfolding(history_rules::specs::Frames::frame_maker))]
    pub fn frame_maker(&self, frame: u64) -> Option<&'a Message>
        ensures { option_copied result ≡ frames.frame_maker self.now.script self.now.entries frame }
    {
        let starts = self.start_count();
        if frame < starts {
            None
        } else {
            frame_maker_at(self.entries(), frame - starts)
        }
    }

    /// The message that began a navigation; none began that of a start page.
    #[tactic(auto, unfolding(history_rules::specs::Frames::navigation_maker))]
    pub fn navigation_maker(&self, navigation: u64) -> Option<&'a Message>
        ensures { option_copied result ≡ frames.navigation_maker self.now.script self.now.entries navigation }
    {
        let starts = self.start_count();
        if navigation < starts {
            None
        } else {
            navigation_maker_at(self.entries(), navigation - starts)
        }
    }

    /// The document that added a frame to its own.
    pub fn adder_of(&self, frame: u64) -> Option<u64>
        ensures { result ≡ frames.adder_of self.now.script self.now.entries frame }
    {
        adder_in(self.frame_maker(frame)?)
    }

    /// The frame of the document that added it.
    pub fn parent_of(&self, frame: u64) -> Option<u64>
        ensures { result ≡ frames.parent_of self.now.script self.now.entries frame }
    {
        Some(self.frame_of(self.adder_of(frame)?))
    }

    /// Whether a frame was ever a child of this parent.
    pub fn is_child(&self, frame: u64, parent: u64) -> bool
        ensures { result ≡ frames.is_child self.now.script self.now.entries frame parent }
    {
        match self.parent_of(frame) {
            Some(own) => own == parent,
            None => false,
        }
    }

    // The walk to the ancestors, one frame further.
    pub(crate) fn above(&self, climb: Climb) -> Option<Climb>
        ensures rest { lineage_from self.now.script self.now.entries (Some climb) ≡ climb.frame ∷ lineage_from self.now.script self.now.entries result }
        ensures shorter { IfSome result (λ next. next.left < climb.left) }
    {
        let left = climb.left.checked_sub(1)?;
        let frame = self.parent_of(climb.frame)?;
        Some(Climb { frame, left })
    }

    /// Whether a frame stands below this ancestor.
    #[tactic(auto, unfolding(history_rules::specs::Frames::lineage))]
    pub fn is_descendant(&self, frame: u64, ancestor: u64) -> bool
        ensures { result ≡ frames.is_descendant self.now.script self.now.entries frame ancestor }
    {
        let mut next = self.above(Climb { frame, left: frame });
        while let Some(climb) = next {
            if climb.frame == ancestor {
                return true;
            }
            next = self.above(climb);
        }
        false
    }

    /// The top frame of a frame's page.
    #[tactic(auto, unfolding(history_rules::specs::Frames::top_of, history_rules::specs::Frames::lineage))]
    pub fn top_of(&self, frame: u64) -> u64
        ensures { result ≡ frames.top_of self.now.script self.now.entries frame }
    {
        let mut top = frame;
        let mut next = self.above(Climb { frame, left: frame });
        while let Some(climb) = next {
            top = climb.frame;
            next = self.above(climb);
        }
        top
    }

    /// The opener of a frame's page: the frame of the document that opened it.
    #[tactic(auto, unfolding(history_rules::specs::Frames::opener_of))]
    pub fn opener_of(&self, frame: u64) -> Option<u64>
        ensures { result ≡ frames.opener_of self.now.script self.now.entries frame }
    {
        let maker = self.frame_maker(self.top_of(frame))?;
        Some(self.frame_of(opener_in(maker)?))
    }

    /// The frame whose document made a frame, as a child or as a page.
    pub fn maker_frame(&self, frame: u64) -> Option<u64>
        ensures { result ≡ frames.maker_frame self.now.script self.now.entries frame }
    {
        let maker = self.frame_maker(frame)?;
        Some(self.frame_of(u64::from(maker.document)))
    }

    // The walk to the makers, one frame further.
    fn before(&self, climb: Climb) -> Option<Climb>
        ensures rest { makers_from self.now.script self.now.entries (Some climb) ≡ climb.frame ∷ makers_from self.now.script self.now.entries result }
        ensures shorter { IfSome result (λ next. next.left < climb.left) }
    {
        let left = climb.left.checked_sub(1)?;
        let frame = self.maker_frame(climb.frame)?;
        Some(Climb { frame, left })
    }

    // The start frame of a frame's group.
    fn first_maker(&self, frame: u64) -> u64
        ensures { Some result ≡ last_or None (frames.makers_within self.now.script self.now.entries (suc frame) frame) }
    {
        let mut first = frame;
        let mut next = self.before(Climb { frame, left: frame });
        while let Some(climb) = next {
            first = climb.frame;
            next = self.before(climb);
        }
        first
    }

    /// The group of a frame, by the number of its start page.
    #[tactic(auto, unfolding(history_rules::specs::Frames::group_of))]
    pub fn group_of(&self, frame: u64) -> Option<u64>
        ensures { result ≡ frames.group_of self.now.script self.now.entries frame }
    {
        if self.was_made(frame) {
            Some(self.first_maker(frame))
        } else {
            None
        }
    }

    /// Whether a frame was made, in this group.
    pub fn is_in_group(&self, group: u64, frame: u64) -> bool
        ensures { result ≡ frames.is_in_group self.now.script self.now.entries group frame }
    {
        match self.group_of(frame) {
            Some(own) => own == group,
            None => false,
        }
    }

    /// Whether two frames were ever in one group.
    pub fn share_group(&self, frame: u64, other: u64) -> bool
        ensures { result ≡ frames.share_group self.now.script self.now.entries frame other }
    {
        match self.group_of(frame) {
            Some(group) => self.is_in_group(group, other),
            None => false,
        }
    }

    /// Whether a frame itself was added with sandbox.
    pub fn was_sandboxed(&self, frame: u64) -> bool
        ensures { result ≡ frames.was_sandboxed self.now.script self.now.entries frame }
    {
        match self.frame_maker(frame) {
            Some(maker) => body_sandboxes(&maker.body),
            None => false,
        }
    }

    /// Whether a frame or one of its ancestors was added with sandbox.
    #[tactic(auto, unfolding(history_rules::specs::Frames::is_sandboxed, history_rules::specs::Frames::lineage))]
    pub fn is_sandboxed(&self, frame: u64) -> bool
        ensures { result ≡ frames.is_sandboxed self.now.script self.now.entries frame }
    {
        let mut next = Some(Climb { frame, left: frame });
        while let Some(climb) = next {
            if self.was_sandboxed(climb.frame) {
                return true;
            }
            next = self.above(climb);
        }
        false
    }
}
