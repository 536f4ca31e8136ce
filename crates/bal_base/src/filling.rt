//! Lists that are filled with one item: vectors that are written only as far as something else than a zero was set, and
//! lists that are new.
ghost use Rattle.std.specs.Prelude.{◌≡◌, ◌≤◌, IfOk, replicate, vec_capacity};
ghost use Rattle.bal_base.specs.Filling.{grown};

use crate::{Items, NoMemory};
use std::alloc::Global;

/// An item is written again and again up to an end, if the items do not reach it. There is room for them.
#[inline(always)]
pub fn grow<T: Copy>(items: &mut Vec<T>, end: usize, item: T)
    requires { end ≤ vec_capacity items.old }
    ensures items { items.new.items ≡ grown end item items.old.items }
    ensures capacity { vec_capacity items.old ≤ vec_capacity items.new }
{
    if end <= items.len() {
        return;
    }
    if items.resize(end, item).is_err() {
        // There is room.
        unreachable!();
    }
}

/// A list of so many equal items.
pub fn filled<T: Copy>(alloc: Global, item: T, count: usize) -> Result<Items<T>, NoMemory>
    ensures { IfOk result (λ it. it.list ≡ replicate count item) }
{
    let mut items = Items::make(alloc)?;
    items.reserve(count)?;
    for _ in 0..count {
        items.push(item);
    }
    Ok(items)
}
