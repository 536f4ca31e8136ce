//! The rules of a legal run, as definitions, and what follows from them. There is no code. The definitions stand in `specs/`,
//! from the bottom up: `Board` (what a journal says of the heap), one module for each kind of event (`RowEvents`,
//! `NoteEvents`, `PartialEvents`, `MarkEvents`, `GlobalEvents`), `After` (the board after any event), `Path` (the events of
//! one row) and `Run`. `Sound`, `Range` and `Occupied` say what holds of the board after every run, and `laws` that it does:
//! the other crates go by it. `bal_laws` has more of what follows.
#![tactic(auto)]

mod laws;

pub use laws::{
    a_global_leaves_room_or_a_full_heap, a_run_goes_on_after_a_global, a_run_grows,
    a_run_stays_in_its_regions, each_object_takes_a_row, objects_stay_in_range,
    objects_take_what_they_asked_for, present_names_ascend, present_objects_were_made,
};
