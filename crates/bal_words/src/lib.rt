//! How the words of a heap stand for a graph: which objects start where, what a program sees of them, and what stays of
//! that when one of them is written, made or moved. The laws stand on functions that do nothing, so that they are proved
//! with the crate.
//!
//! - `shown`: one object is read, written or made.
//! - `moved`: objects are carried to other addresses, and the references mended.
//! - `pieces`: an object's words are written one by one.
#![tactic(auto)]

pub mod moved;
pub mod pieces;
pub mod shown;
