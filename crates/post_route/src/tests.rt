use crate::{Inboxes, Posted};
use script_model::RequestText;
use std::alloc::Global;
use std::test::Fail;
use test_support::origin;

/// What happens to the inbox of a document.
enum Step {
    Route(u32, &'static str),
    /// The text of the post that is taken, if any.
    Take(u32, Option<&'static str>),
    Forget(u32),
    Empty(u32, bool),
}

const LAST: u32 = u32::MAX;

/// Each step follows those before it.
const STEPS: &[Step] = &[
    Step::Empty(0, true),
    Step::Take(0, None),
    Step::Route(0, "one"),
    Step::Route(LAST, "far"),
    Step::Route(0, "two"),
    Step::Route(0, "one"),
    Step::Empty(0, false),
    Step::Empty(1, true),
    Step::Take(1, None),
    Step::Take(0, Some("one")),
    Step::Take(0, Some("two")),
    Step::Route(0, ""),
    Step::Take(0, Some("one")),
    Step::Take(0, Some("")),
    Step::Take(0, None),
    Step::Empty(0, true),
    Step::Route(0, "lost"),
    Step::Forget(0),
    Step::Forget(1),
    Step::Take(0, None),
    Step::Empty(LAST, false),
    Step::Take(LAST, Some("far")),
];

fn posted(alloc: Global, text: &str) -> Result<Posted, Fail> {
    Ok(Posted {
        source: origin(alloc, "https://a.com/")?,
        text: RequestText::of(alloc, text)?,
    })
}

fn is_as_told(alloc: Global, inboxes: &mut Inboxes, step: &Step) -> Result<bool, Fail> {
    match step {
        Step::Route(document, text) => Ok(inboxes.route(*document, posted(alloc, text)?).is_ok()),
        Step::Take(document, text) => Ok(match (inboxes.take(*document), text) {
            (None, None) => true,
            (Some(post), Some(text)) => post.text.as_str() == *text,
            _ => false,
        }),
        Step::Forget(document) => {
            inboxes.forget(*document);
            Ok(true)
        }
        Step::Empty(document, empty) => Ok(inboxes.empty(*document) == *empty),
    }
}

#[test]
fn each_inbox_is_first_in_first_out(rt: HostRuntime) -> Result<(), Fail> {
    let mut inboxes = Inboxes::new(rt.alloc());
    for (index, step) in STEPS.iter().enumerate() {
        assert!(rt; is_as_told(rt.alloc(), &mut inboxes, step)?, "step {index}");
    }
    Ok(())
}
