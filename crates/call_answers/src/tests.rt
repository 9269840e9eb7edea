use crate::NoMemory;
use std::test::Fail;

#[test]
fn the_want_of_memory_has_one_text(rt: HostRuntime) -> Result<(), Fail> {
    let text = format!(in rt.alloc(); "{NoMemory}")?;
    assert_eq!(rt; text.as_str(), "no memory");
    Ok(())
}
