// The holder count: a run, and then how many places hold an object, as its record has it. Nothing is counted here.
#![tactic(auto)]

ghost use Rattle.holders.specs.StoredCounts.{CountsState, Counts};

use rules::{Fault, Refusal};

// Runs the turns, then tells how many places hold an object. A refusal by 1 to 9 changes no word; after 21 the tables hold the run.
pub fn holders(
    text: &[u8],
    turns: &[u8],
    program: &mut [u16],
    state: &mut [u16],
    object: usize,
) -> Result<u16, Refusal>
    ensures { Counts text.now turns.now program.old state.old object result program.new state.new }
{
    run::run(text, turns, program, state)?;
    count_on(state, object)
}

// The count of an object in a state table that holds a run. What is too short to be one is refused with 9.
pub fn count_on(s: &[u16], object: usize) -> Result<u16, Refusal>
    ensures { CountsState s.now object result }
{
    if s.len() < 8192 {
        return Err(Fault::ShortTable.at(0));
    }
    if table::object_count(s) as usize <= object {
        return Err(Fault::NoObject.at(0));
    }
    Ok(table::holder_count(s, (object % 256) as u16))
}
