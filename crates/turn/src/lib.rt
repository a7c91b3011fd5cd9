// One turn of one thread on the tables.
// A table is lent as a slice, and each contract says `8192 ≤ length` (kept: crate table says why).
#![tactic(auto, using(table::proofs::StateReads::object_in_table, table::proofs::StateReads::channel_in_table, checks::proofs::CheckLaws::object_place, checks::proofs::CheckLaws::channel_place))]

mod copies;
mod form_moves;
mod turns;

// Where a thread stands once its line has moved: at the frame's next line, at the same line, or in another frame or finished.
#[derive(Clone, Copy, Debug, PartialEq, Eq)]
pub enum Move {
    Next,
    Stay,
    Turned,
}

pub use turns::{perform, perform_copy, turn, would_wait};
