// One line of a script, read straight from the text: no copy of it is made.
#![tactic(auto)]

mod forms;
mod parts;
mod words;

pub use forms::{Line, line_at, script_end};
pub use parts::{Part, number_at, over};
pub use words::{begins_at, both, byte, either};
