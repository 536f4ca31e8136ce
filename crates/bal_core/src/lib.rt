//! The evacuation as a world of its own: what any number of workers do to the words of objects, the pool and the abort, one
//! atomic step after another, in any order.
//!
//! 1. `graph`: the objects that may be copied, as the evacuation asks for them.
//! 2. `event`: the atomic steps, their answers and their refusals.
//! 3. `row`: what one worker did.
//! 4. `state`: the whole state, and what holds in it.
//! 5. `start`: how an evacuation begins.
//! 6. `fault`: which steps are refused.
//! 7. `step`: one step, and a list of steps.
//! 8. `laws`: what the invariant means, in the words of the subject.
#![tactic(auto)]

mod event;
mod fault;
mod graph;
mod laws;
mod row;
mod start;
mod state;
mod step;
#[cfg(test)]
mod tests;

pub use event::{CoreAnswer, CoreEvent, CoreFault, Decision};
pub use graph::FromGraph;
pub use laws::{
    a_state_at_rest_is_a_finished_evacuation, at_rest_just_what_is_reached_is_decided,
    copies_do_not_overlap, copies_leave_no_gaps, decided_objects_end_walks_of_decided_objects,
    decisions_stay, the_invariant_holds_in_every_order,
};
pub use row::{Drawn, Told};
pub use start::{core_start, name_of};
pub use state::CoreState;
pub use step::{apply, run_core};
