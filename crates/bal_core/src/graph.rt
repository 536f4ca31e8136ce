//! The objects that may be copied, as the evacuation asks for them.
ghost use Rattle.std.specs.Prelude.{◌≡◌, ◌<◌, Some, length, slice_get};
ghost use Rattle.bal_core.specs.World.{Graph, slots_in};

/// The objects of the chosen regions, numbered from 0 in the order of their addresses.
pub trait FromGraph {
    /// All that is asked for.
    ghost graph: { Self → Graph };

    /// How many objects there are.
    fn count(&self) -> u32
        ensures { result ≡ length (graph self.now).ages };

    /// The age of the object's region.
    fn age(&self, object: u32) -> u8
        requires { object < length (graph self.now).ages }
        ensures { slice_get (graph self.now).ages object ≡ Some result };

    /// The object's words, from its header on.
    fn words(&self, object: u32) -> &[u64]
        requires { object < length (graph self.now).ages }
        ensures { slice_get (graph self.now).words object ≡ Some result.now };

    /// How many slots the object has.
    fn slots(&self, object: u32) -> u32
        requires { object < length (graph self.now).ages }
        ensures { result ≡ length (slots_in (graph self.now).targets object) };

    /// The object that a slot holds: None if the slot is null or leads out of the chosen regions.
    fn target(&self, object: u32, slot: u32) -> Option<u32>
        requires object { object < length (graph self.now).ages }
        requires slot { slot < length (slots_in (graph self.now).targets object) }
        ensures { slice_get (slots_in (graph self.now).targets object) slot ≡ Some result };
}
