//! The children of a node, of which a few are in the value itself.
use pc_core::Children;
use std::alloc::{AllocError, Global};

// Whether the children that are made of these numbers have them, also for one more owner.
fn are_kept(alloc: Global, numbers: &[u32]) -> Result<bool, AllocError> {
    let children = Children::from_slice(alloc, numbers)?;
    let shared = children.share()?;
    let same = children.as_slice() == numbers && shared.as_slice() == numbers;
    Ok(same && children.len() == numbers.len())
}

#[test]
fn children_are_those_of_the_list(rt: HostRuntime) {
    assert_eq!(rt; are_kept(rt.alloc(), &[]), Ok(true));
    assert_eq!(rt; are_kept(rt.alloc(), &[7]), Ok(true));
    assert_eq!(rt; are_kept(rt.alloc(), &[7, 3]), Ok(true));
    assert_eq!(rt; are_kept(rt.alloc(), &[7, 3, 9]), Ok(true));
}
