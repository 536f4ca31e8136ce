//! What an evacuation reaches by its numbers is what the rules keep by its names. Between the two lie three steps: the words
//! of a heap stand for the plain graph, the objects of the chosen regions have numbers, and what holds them from outside was
//! gathered. The laws stand on functions that do nothing, so that they are proved with the crate; there is no code.
//!
//! - `reached`: a walk by number ends at an object exactly if the rules keep its name.
//! - `told`: what the world of an evacuation says of each object.
#![tactic(auto)]

mod reached;
mod told;

pub use reached::{just_what_is_kept_is_reached, what_is_reached_in_order_is_what_is_kept};
pub use told::{the_world_tells_the_objects, the_world_tells_what_the_board_does};
