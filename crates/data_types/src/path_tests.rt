//! Ways to nodes as they are printed.
use crate::{DICTIONARY_STEP, Path};
use std::test::Fail;

#[test]
fn a_way_names_each_step(rt: HostRuntime) -> Result<(), Fail> {
    let alloc = rt.alloc();
    let root = Path::root();
    let below = root.down(0).down(DICTIONARY_STEP).down(12);
    assert_eq!(rt; root.to_string(alloc)?.as_str(), "/");
    assert_eq!(rt; root.down(3).to_string(alloc)?.as_str(), "/3");
    assert_eq!(rt; below.to_string(alloc)?.as_str(), "/0/d/12");
    Ok(())
}
