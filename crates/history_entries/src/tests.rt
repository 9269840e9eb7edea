use crate::{Entry, History, Policy, text_of};
use std::test::Fail;

#[test]
fn texts_of_either_policy(rt: HostRuntime) -> Result<(), Fail> {
    let alloc = rt.alloc();
    let mut history = History::new(alloc);
    assert!(rt; text_of(alloc, Policy::One, &history)?.is_empty());
    let text = text_of(alloc, Policy::Two, &history)?;
    assert_eq!(rt; text.as_slice(), b"history 2\n".as_slice());
    history.push(Entry::Opened(0))?;
    let Ok(roomy) = history.with_room() else {
        return Err(Fail::new("no room for an entry"));
    };
    assert_eq!(rt; roomy.entries().len(), 1);
    let history = roomy.push(Entry::Exit(7));
    let Ok(roomy) = history.with_room() else {
        return Err(Fail::new("no room for an entry"));
    };
    let history = roomy.release();
    assert_eq!(rt; history.entries().len(), 2);
    let text = text_of(alloc, Policy::Two, &history)?;
    assert_eq!(rt; text.as_slice(), b"history 2\nopen 0\nexit 7\n".as_slice());
    let entries = history.into_entries();
    assert!(rt; matches!(entries.as_slice(), [Entry::Opened(0), Entry::Exit(7)]));
    Ok(())
}
