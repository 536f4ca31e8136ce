//! What a flush tells.

/// A region remembers a card from now on, or overflows, because a reference leads into it from that card: it is in this slot
/// of the object that starts at this address.
#[derive(Clone, Copy)]
pub struct Note {
    pub region: u32,
    pub card: u32,
    pub holder: u32,
    pub slot: u32,
}
