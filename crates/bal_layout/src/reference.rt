//! How a reference is written as a word. The code is here alone, and everyone above asks for a word's target and for a
//! target's word.
ghost use Rattle.std.specs.Prelude.{◌≡◌, ◌≤◌, ◌^◌};
ghost use Rattle.bal_layout.specs.References.{target_of, word_of};

/// The word of null. Fresh words are zero, so that the references of a new object are null.
pub const NULL: u64 = 0;

/// The word of a reference to an address.
pub fn word_of(address: u32) -> u64
    ensures { result ≡ word_of address }
{
    u64::from(address) + 1
}

/// The address to which a reference word leads: None exactly if it is null.
pub fn target_of(word: u64) -> Option<u32>
    requires { word ≤ 2 ^ 32 }
    ensures { result ≡ target_of word }
{
    if word == NULL {
        return None;
    }
    Some((word - 1) as u32)
}
