//! Where new objects go: into the current region as long as their words fit, and else into the lowest free region, which is
//! then the current one.
//!
//! - `room`: whether there is room, and where.
//! - `placement`: an object is placed there.
#![tactic(auto)]

mod placement;
mod room;
#[cfg(test)]
mod tests;

pub use placement::allocate;
pub use room::{Room, find_room};
