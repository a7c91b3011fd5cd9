// What the checks of a line answer, read off the tables. None of them writes.
// A table is lent as a slice, and each contract says `8192 ≤ length` (kept: crate table says why).
#![tactic(auto, using(table::proofs::StateReads::object_in_table, table::proofs::StateReads::channel_in_table, crate::proofs::CheckLaws::object_place, crate::proofs::CheckLaws::channel_place))]

mod form_checks;
mod items;

pub use form_checks::{
    Halt, as_channel, as_object, cast_check, is_foreign, is_iso_object, method_block, operand,
    operand_check, permission_check, put_check, put_into, recv_check, seen, sent_check, slot_of,
    spawn_check, swap_into,
};
pub use items::{hold_check, item_value, item_values, items_check};
