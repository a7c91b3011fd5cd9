// Races: whether two turns of a run race, and which. The turns are played once, and of the turns before only the last ones that count are noted.
// A table is lent as a slice, and each contract says `8192 ≤ length` (kept: crate table says why).
#![tactic(auto)]

mod events;
mod judging;
mod marks;

ghost use Rattle.races.specs.Judged.{Judges, Finds};

use judging::judge_turns;
use marks::{Marks, Rows};
use rules::{Fault, Refusal};

// The earliest turn that races with one before it: the place of the last such turn, its own place, the object and the field.
#[derive(Clone, Copy, Debug, PartialEq, Eq)]
pub struct Race {
    pub first: usize,
    pub second: usize,
    pub object: u16,
    pub field: u16,
}

// Runs at most 1,024 turns, and tells whether two of them race. A refusal changes no word.
pub fn find_race(
    text: &[u8],
    turns: &[u8],
    program: &mut [u16],
    state: &mut [u16],
) -> Result<Option<Race>, Refusal>
    ensures { Finds text.now turns.now program.old state.old result program.new state.new }
{
    if 1024 < turns.len() {
        return Err(Fault::Overlong.at(0));
    }
    run::run_into(text, turns, false, program, state)?;
    judge(program, turns)
}

// The turns of a program table that holds a program, from a fresh start. What is too short to be one is refused with 9, a longer list with 1.
pub fn judge(p: &[u16], turns: &[u8]) -> Result<Option<Race>, Refusal>
    ensures { Judges p.now turns.now result }
{
    if 1024 < turns.len() {
        return Err(Fault::Overlong.at(0));
    }
    if p.len() < 8192 {
        return Err(Fault::ShortTable.at(0));
    }
    let mut s = [0u16; 8192];
    table::start_state(&mut s);
    let mut marks = Marks {
        receives: [0u16; 4096],
        reads: Rows {
            last: [0u16; 16384],
            puts: [0u16; 16384],
        },
        swaps: Rows {
            last: [0u16; 16384],
            puts: [0u16; 16384],
        },
    };
    Ok(judge_turns(p, turns, &mut s, &mut marks))
}
