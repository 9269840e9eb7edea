//! What a judgement asks of a history.

ghost use Rattle.std.specs.Prelude.{◌≡◌, IsTrue, List, Some, slice_get};
ghost use Rattle.std.specs.Option.{option_copied, option_map};
ghost use Rattle.history_rules.specs.Documents as documents;
ghost use Rattle.history_rules.specs.Frames as frames;
ghost use Rattle.history_rules.specs.Judgement as judgement;
ghost use Rattle.history_rules.specs.Navigations as navigations;
ghost use Rattle.history_rules.specs.Orders as orders;
ghost use Rattle.history_rules.specs.Processes as processes;
ghost use Rattle.history_rules.specs.Requests as requests;

use page_origin::{Origin, Site};
use site_url::SiteRules;

/// The facts of a script and a history of it.
///
/// Each answer is exactly the fact of its name in `history_rules`. None takes memory.
pub trait Facts {
    ghost use Rattle.history_entry.specs.declared.entry.Entry.{Entry};
    ghost use Rattle.script_model.specs.ScriptData.{ScriptData};

    // The script.
    ghost script: { Self → ScriptData };

    // The entries of its history.
    ghost entries: { Self → List Entry };

    /// The rules of the script by which sites are told.
    fn rules(&self) -> &SiteRules
        ensures { result.now ≡ (script self.now).rules };

    /// The site to which a process is locked; None where it isn't locked.
    fn lock_of(&self, process: u32) -> Option<&Site>
        ensures { option_copied result ≡ processes.lock_of (entries self.now) process };

    /// Whether a document was ever a committed document of a process.
    fn hosted(&self, process: u32, document: u32) -> bool
        ensures { result ≡ documents.hosted (entries self.now) process document };

    /// Whether a document is current.
    fn is_current(&self, document: u32) -> bool
        ensures { result ≡ documents.is_current (script self.now) (entries self.now) document };

    /// The current document at a place, from 0, by rising number; None where no more than `index` documents are current.
    fn nth_current(&self, index: u32) -> Option<u32>
        ensures { result ≡ slice_get (documents.current_documents (script self.now) (entries self.now)) index };

    /// The origin of a current document.
    fn origin_of(&self, document: u32) -> &Origin
        requires { IsTrue (documents.is_current (script self.now) (entries self.now) document) }
        ensures { documents.origin_of (entries self.now) document ≡ Some result.now };

    /// The frame of a current document.
    fn frame_of(&self, document: u32) -> u32
        requires { IsTrue (documents.is_current (script self.now) (entries self.now) document) }
        ensures { result ≡ frames.frame_of (script self.now) (entries self.now) document };

    /// Whether a frame was ever in the group of a current document.
    fn in_group(&self, document: u32, frame: u32) -> bool
        requires { IsTrue (documents.is_current (script self.now) (entries self.now) document) }
        ensures { result ≡ judgement.in_group (script self.now) (entries self.now) document frame };

    /// Whether a current document may navigate a frame that was made.
    fn may_navigate(&self, document: u32, frame: u32) -> bool
        requires current { IsTrue (documents.is_current (script self.now) (entries self.now) document) }
        requires made { IsTrue (frames.was_made (script self.now) (entries self.now) frame) }
        ensures { result ≡ documents.may_navigate (script self.now) (entries self.now) document frame };

    /// Whether a frame that was made is present.
    fn is_present(&self, frame: u32) -> bool
        requires { IsTrue (frames.was_made (script self.now) (entries self.now) frame) }
        ensures { result ≡ documents.is_present (script self.now) (entries self.now) frame };

    /// Whether a frame was ever a child of `parent`.
    fn is_child(&self, frame: u32, parent: u32) -> bool
        ensures { result ≡ frames.is_child (script self.now) (entries self.now) frame parent };

    /// Whether a frame that was made, or one of its ancestors, was added with sandbox.
    fn is_sandboxed(&self, frame: u32) -> bool
        requires { IsTrue (frames.was_made (script self.now) (entries self.now) frame) }
        ensures { result ≡ frames.is_sandboxed (script self.now) (entries self.now) frame };

    /// The current document of a frame that was made, if it has one.
    fn document_in(&self, frame: u32) -> Option<u32>
        requires { IsTrue (frames.was_made (script self.now) (entries self.now) frame) }
        ensures { result ≡ documents.document_in (script self.now) (entries self.now) frame };

    /// How many frames were made, the start frames among them from the beginning.
    fn frames_made(&self) -> u32
        ensures { result ≡ frames.frames_made (script self.now) (entries self.now) };

    /// How many navigations began, the start navigations among them from the beginning.
    fn navs_made(&self) -> u32
        ensures { result ≡ frames.navigations_made (script self.now) (entries self.now) };

    /// How many requests began.
    fn requests_made(&self) -> u32
        ensures { result ≡ requests.requests_made (entries self.now) };

    /// Whether a navigation was ever ordered to a process.
    fn had_order(&self, process: u32, nav: u32) -> bool
        ensures { result ≡ orders.had_order (entries self.now) process nav };

    /// Whether the order of a navigation is waiting.
    fn is_waiting(&self, nav: u32) -> bool
        ensures { result ≡ navigations.is_waiting (script self.now) (entries self.now) nav };

    /// The URL of an order that is waiting.
    fn order_url(&self, nav: u32) -> &str
        requires { IsTrue (navigations.is_waiting (script self.now) (entries self.now) nav) }
        ensures { option_map (λ order. order.url) (orders.order_of (entries self.now) nav) ≡ Some result.now };

    /// The origin of an order that is waiting.
    fn order_origin(&self, nav: u32) -> &Origin
        requires { IsTrue (navigations.is_waiting (script self.now) (entries self.now) nav) }
        ensures { option_map (λ order. order.origin) (orders.order_of (entries self.now) nav) ≡ Some result.now };
}
