//! What a partial collection leaves: laws over whatever evacuates, one worker by itself or many that race. The collection itself,
//! which calls the steps in their order, stands above this crate.
//!
//! 1. The regions with the copies are put back into the table, and so are those that were not drawn (`specs/Filled.antt`).
//!    For an evacuation by one worker just its copies are added (`specs/Returned.antt`).
//! 2. The chosen regions keep just their marked objects: then exactly the survivors are there, each where it went
//!    (`specs/Moving.antt`).
//! 3. References are mended, and each one between regions is covered again (`specs/Covered.antt`).
//!
//! - `telling`: where the objects of the chosen regions went.
//! - `filling`: the regions that were out are put back.
//! - `laws`: what the steps leave.
#![tactic(auto)]

mod filling;
mod laws;
mod telling;

pub use filling::{put_pool_back, put_survivors_back};
pub use laws::{
    an_evacuation_is_one_of_the_board, an_evacuation_is_put_back,
    an_evacuation_puts_back_what_is_out, decisions_are_those_that_were_told,
    references_are_covered_again, regions_are_put_back, regions_are_those_of_the_board,
    survivors_are_carried, survivors_lead_to_survivors, survivors_lie_where_the_board_has_them,
};
pub use telling::tell_addresses;
