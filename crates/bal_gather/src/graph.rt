//! The objects of the chosen regions as the evacuation asks for them: by number, with their words as they lie in the heap.
ghost use Rattle.std.specs.Prelude.{◌≡◌, ◌<◌, IsSome, IsTrue, Some, length, slice_get};
ghost use Rattle.bal_table.specs.Table.{IsTable, things_of};
ghost use Rattle.bal_gather.specs.Lent.{is_chosen};
ghost use Rattle.bal_gather.specs.Numbers.{starts_of};
ghost use Rattle.bal_gather.specs.Objects.{graph_of, number_behind};

use crate::Numbered;
use bal_core::FromGraph;
use bal_layout::target_of;

impl<'a> FromGraph for Numbered<'a> {
    ghost graph = { graph_of };

    fn count(&self) -> u32 {
        // Of a table it is known how many addresses it has.
        let _ = self.chosen().geometry();
        self.addresses().len() as u32
    }

    fn age(&self, object: u32) -> u8 {
        self.chosen().age_at(self.address_of(object))
    }

    fn words(&self, object: u32) -> &[u64] {
        self.chosen().object_at(self.address_of(object))
    }

    fn slots(&self, object: u32) -> u32 {
        self.chosen().slots(self.address_of(object))
    }

    fn target(&self, object: u32, slot: u32) -> Option<u32> {
        let word = self.chosen().slot_word(self.address_of(object), slot);
        self.number_behind(word)
    }
}

impl<'a> Numbered<'a> {
    /// Where the object of this number starts.
    pub fn address_of(&self, object: u32) -> u32
        requires { object < length (starts_of self.now) }
        ensures address { slice_get (starts_of self.now) object ≡ Some result }
        ensures start { IsSome (things_of self.now.table result) }
        ensures chosen { IsTrue (is_chosen self.now result) }
        ensures limits { IsTable self.now.table }
    {
        let _ = self.chosen().geometry();
        self.addresses()[object as usize]
    }

    /// The number of the object to which a reference word leads: None if it is null, or leads out of the chosen regions. The
    /// word may be any.
    pub fn number_behind(&self, word: u64) -> Option<u32>
        ensures { result ≡ number_behind self.now word }
    {
        let geometry = self.chosen().geometry();
        if word > u64::from(geometry.regions() * geometry.words()) {
            return None;
        }
        self.number_at(target_of(word)?)
    }
}
