//! Lists whose items ascend.
ghost use Rattle.std.specs.Prelude.{◌≡◌, Bool, IfOk, nat_lt, option_map};
ghost use Rattle.bal_layout.specs.Names.{is_before};
ghost use Rattle.bal_text.specs.Lines.{ascends, is_cause_before, is_kept_before};
ghost use Rattle.bal_text.specs.Readings.{rising};

use super::items::{Listed, items_at};
use bal_model::{Abort, Items, Kept, Name, NoMemory};
use std::alloc::Global;

/// An item of a list that ascends.
pub trait Ordered: Sized {
    /// Whether one stands before another.
    ghost before: { Self → Self → Bool };

    /// Whether it stands before another.
    fn is_before(&self, other: &Self) -> bool
        ensures { result ≡ before self.now other.now };
}

/// Regions by number.
impl Ordered for u32 {
    ghost before = { nat_lt };

    fn is_before(&self, other: &u32) -> bool {
        *self < *other
    }
}

/// Names by thread, then by ordinal.
impl Ordered for Name {
    ghost before = { is_before };

    fn is_before(&self, other: &Name) -> bool {
        Name::is_before(self, other)
    }
}

/// Kept objects by name.
impl Ordered for Kept {
    ghost before = { is_kept_before };

    fn is_before(&self, other: &Kept) -> bool {
        self.name.is_before(&other.name)
    }
}

/// The wished workers by number, then `Drained`.
impl Ordered for Abort {
    ghost before = { is_cause_before };

    fn is_before(&self, other: &Abort) -> bool {
        match (self, other) {
            (Abort::Wished(worker), Abort::Wished(other)) => worker < other,
            (Abort::Wished(_), Abort::Drained) => true,
            (Abort::Drained, _) => false,
        }
    }
}

/// Whether each item stands before the next one.
fn ascend<W: Ordered>(items: &[W]) -> bool
    ensures { result ≡ ascends W.before items.now }
{
    for i in 1..items.len() {
        if !items[i - 1].is_before(&items[i]) {
            return false;
        }
    }
    true
}

/// As many items as stand at the front of a text, if they ascend. They are tested once all are read.
pub fn rising_at<W: Listed + Ordered + Drop>(
    alloc: Global,
    text: &[u8],
) -> Result<Option<(Items<W>, &[u8])>, NoMemory>
    ensures { IfOk result (λ found. option_map (λ p. (p.0.list, p.1.now)) found ≡ rising W.before W.reading text.now) }
{
    let (items, rest) = items_at(alloc, text)?;
    if !ascend(items.as_slice()) {
        return Ok(None);
    }
    Ok(Some((items, rest)))
}
