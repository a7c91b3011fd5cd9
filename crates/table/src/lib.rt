// The two tables: the only code that knows where a word stands. Everything above it speaks of the abstract program and state.
// A table is lent as a slice, and each contract says `8192 ≤ length`. Kept (what may not change): an array type would be narrower than what the
// public functions take; and a struct round the slice would be no plainer: what is lent for writing would stand behind two references, and each clause
// would name the field and the slice behind it. Forms, capabilities and the edition are numbers where a parameter is one, which may not be narrowed, and
// where a word of a table is told, 0 for none among them. Numbers of objects, threads, frames and channels are plain, and values those of rules, each with its bound in the contract: a type
// for each would only wrap what its caller has tested, and be taken off again at each index (kept: no plainer).
#![tactic(auto)]

mod program;
mod standing;
mod state;
mod stripped;

pub use program::{
    add_line, add_opener, block_form, copy_table, edition, first_line, kind_fields, kind_method,
    line_count, line_word, put_counts, same_table, used_words,
};
pub use standing::Here;
pub use state::{
    add_object, cap, clear_slot, creator, drop_frame, empty_channel, field, frame_block,
    frame_count, frame_line, frame_slot, give_value, hold, holder_count, kind, locate, message,
    message_number, object_count, push_frame, put_message, release, return_value, sender, slot,
    slot_count, start_state, start_thread, store_field, thread_count,
};
pub use stripped::{erase_state, strip_program};
