//! What a document sees of a history when its actions become messages.

ghost use Rattle.std.specs.Prelude.{◌≡◌, ◌==◌, ◌++◌, ◌∷◌, [], IfOk, false, if◌then◌else◌};
ghost use Rattle.std.specs.Option.{option_map_or};
ghost use Rattle.history_rules.specs.Frames.{adder_of};
ghost use Rattle.history_rules.specs.Sights as sights;

use entry_facts::sights::body_srcdoc;
use history_rules::{FrameList, Sight};
use page_origin::{class_of_text, key_of_text};
use plain_facts::PlainFacts;
use plain_facts::documents::{document_url, origin_of};
use plain_facts::numbers::{entry_number, optional_number};
use script_model::{NoMemory, Origin, Script, UrlClass};
use std::alloc::Global;

/// The number of the resource that a frame was added with.
fn srcdoc_of(facts: &PlainFacts<'_>, frame: u64) -> Option<u64>
    ensures { result ≡ sights.srcdoc_of facts.now.script facts.now.entries frame }
{
    match facts.frame_maker(frame) {
        Some(maker) => body_srcdoc(&maker.body),
        None => None,
    }
}

/// The place of the resource of a URL.
fn resource_place(script: &Script, url: &str) -> Option<usize>
    ensures { result ≡ sights.resource_number script.now url.now }
{
    let key = key_of_text(url);
    script
        .resources
        .as_slice()
        .iter()
        .position(|resource| resource.url.key() == key)
}

/// The number of the resource of a URL.
fn resource_number(script: &Script, url: &str) -> Option<u64>
    ensures { result ≡ sights.resource_number script.now url.now }
{
    match resource_place(script, url) {
        Some(place) => Some(place as u64),
        None => None,
    }
}

/// The resource that has a document's actions: for `about:srcdoc` the one that its frame names, else the one of its URL.
#[tactic(auto, unfolding(history_rules::specs::Sights::resource_of_document))]
pub fn resource_of_document(
    alloc: Global,
    facts: &PlainFacts<'_>,
    document: u64,
) -> Result<Option<u64>, NoMemory>
    ensures { IfOk result (λ resource. resource ≡ sights.resource_of_document facts.now.script facts.now.entries document) }
{
    match document_url(facts.entries(), document) {
        Some(url) => match class_of_text(alloc, url.as_str())? {
            UrlClass::AboutSrcdoc => Ok(srcdoc_of(facts, facts.frame_of(document))),
            _ => Ok(resource_number(facts.script(), url.as_str())),
        },
        None => Ok(None),
    }
}

/// Whether a frame was added in a document's name.
fn is_added_by(facts: &PlainFacts<'_>, document: u64, frame: u64) -> bool
    ensures { result ≡ option_map_or (λ adder. adder == document) (adder_of facts.now.script facts.now.entries frame) false }
{
    match facts.adder_of(frame) {
        Some(adder) => adder == document,
        None => false,
    }
}

/// Adds a frame if it was added in a document's name.
fn push_added(
    frames: &mut Vec<u32>,
    facts: &PlainFacts<'_>,
    document: u64,
    frame: u64,
) -> Result<(), NoMemory>
    ensures { IfOk result (λ _. frames.new.items ≡ frames.old.items
        ++ (if option_map_or (λ adder. adder == document) (adder_of facts.now.script facts.now.entries frame) false then frame ∷ [] else [])) }
{
    if is_added_by(facts, document, frame) {
        frames.push(entry_number(frame)?)?;
    }
    Ok(())
}

/// The frames that were added in a document's name, whoever sent the messages.
#[tactic(auto, unfolding(history_rules::specs::Sights::added_by))]
pub fn added_by(alloc: Global, facts: &PlainFacts<'_>, document: u64) -> Result<FrameList, NoMemory>
    ensures { IfOk result (λ frames. frames ≡ sights.added_by facts.now.script facts.now.entries document) }
{
    let mut frames = Vec::new(alloc);
    for frame in 0..facts.frames_made() {
        push_added(&mut frames, facts, document, frame)?;
    }
    Ok(FrameList::from_vec(frames))
}

/// The sight of a document with this origin.
fn sight_with(
    alloc: Global,
    facts: &PlainFacts<'_>,
    document: u64,
    origin: &Origin,
) -> Result<Sight, NoMemory>
    ensures { IfOk result (λ sight. sight ≡ sights.sight_with facts.now.script facts.now.entries document origin.now) }
{
    let frame = facts.frame_of(document);
    Ok(Sight {
        document: entry_number(document)?,
        resource: optional_number(resource_of_document(alloc, facts, document)?)?,
        origin: origin.copy(alloc)?,
        frame: entry_number(frame)?,
        parent: optional_number(facts.parent_of(frame))?,
        top: entry_number(facts.top_of(frame))?,
        opener: optional_number(facts.opener_of(frame))?,
        added: added_by(alloc, facts, document)?,
    })
}

/// What a document sees; one that was never ordered sees nothing.
#[tactic(auto, unfolding(history_rules::specs::Sights::sight_of))]
pub fn sight_of(
    alloc: Global,
    facts: &PlainFacts<'_>,
    document: u64,
) -> Result<Option<Sight>, NoMemory>
    ensures { IfOk result (λ sight. sight ≡ sights.sight_of facts.now.script facts.now.entries document) }
{
    match origin_of(facts.entries(), document) {
        Some(origin) => Ok(Some(sight_with(alloc, facts, document, origin)?)),
        None => Ok(None),
    }
}
