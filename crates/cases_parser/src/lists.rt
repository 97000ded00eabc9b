//! All short lists of kinds.

use anyhow::{Result, bail};
use std::alloc::Global;

/// The list of so many kinds that comes first: the kind 0 each time.
fn first_list(alloc: Global, length: u32) -> Result<Vec<u32>> {
    let mut list = Vec::new(alloc);
    for _ in 0..length {
        list.push(0)?;
    }
    Ok(list)
}

/// Goes on to the list of as many kinds that comes next: the first kind that isn't the last one is
/// one greater, and those before it are 0. The answer is false where all of them are the last one.
fn advance(list: &mut Vec<u32>, kinds: usize) -> bool {
    for index in 0..list.len() {
        let next = list[index].saturating_add(1);
        if (next as usize) < kinds {
            list[index] = next;
            return true;
        }
        list[index] = 0;
    }
    false
}

/// Adds all lists of so many kinds.
fn add_lists(alloc: Global, lists: &mut Vec<Vec<u32>>, kinds: usize, length: u32) -> Result<()> {
    let mut list = first_list(alloc, length)?;
    for _ in 0..u64::MAX {
        lists.push(list.clone()?)?;
        if !advance(&mut list, kinds) {
            return Ok(());
        }
    }
    bail!("there are too many lists")
}

/// All lists of at most so many kinds.
pub(crate) fn lists_up_to(alloc: Global, kinds: usize, longest: u32) -> Result<Vec<Vec<u32>>> {
    let mut lists = Vec::new(alloc);
    for length in 0..=longest {
        add_lists(alloc, &mut lists, kinds, length)?;
    }
    Ok(lists)
}
