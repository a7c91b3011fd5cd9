// Running a script on a list of turns. A table is lent as a slice, and each contract says `8192 ≤ length` (kept: crate table says why); a list of
// turns is a slice too, and what counts in 16 bits asks that it has at most 32,768 (kept: a struct round it would be taken off at once).
#![tactic(auto)]

mod ends;
mod playing;

ghost use Rattle.std.specs.Prelude.{◌≤◌, length};
ghost use Rattle.run.specs.Played.{RunsProgram};
ghost use Rattle.run.specs.RunAnswers.{RunsInto, Runs};
ghost use Rattle.run.specs.Made.{Makes};

use ends::end;
use playing::play;
use rules::{Fault, Refusal};

// Where a turn stopped a run: why, and the thread, its block and line, and the moves before it.
#[derive(Clone, Copy, Debug, PartialEq, Eq)]
pub struct Stop {
    pub fault: Fault,
    pub thread: u16,
    pub block: u16,
    pub line: u16,
    pub moves: u16,
}

// How a run ends, with its moves; or the turn that stops it.
#[derive(Clone, Copy, Debug, PartialEq, Eq)]
pub enum Outcome {
    Finished(u16),
    Stuck(u16),
    Open(u16),
    Stopped(Stop),
}

// Plays the turns of a program that was read, in a fresh table.
pub fn run_program(p: &[u16], s: &mut [u16], turns: &[u8]) -> Outcome
    requires { (8192 ≤ length p.now) × (8192 ≤ length s.old) × (length turns.now ≤ 32768) }
    ensures { RunsProgram p.now turns.now s.old result s.new }
{
    table::start_state(s);
    match play(p, s, turns) {
        Ok(moves) => end(p, s, moves),
        Err(stop) => Outcome::Stopped(stop),
    }
}

// The one way in for a run: makes it in two fresh tables. `short` tells that a slice which the caller was lent is under its length. After a
// refusal the words are of no use.
pub fn make(
    text: &[u8],
    turns: &[u8],
    short: bool,
    p: &mut [u16],
    s: &mut [u16],
) -> Result<Outcome, Refusal>
    ensures { Makes text.now turns.now short p.old s.old result p.new s.new }
{
    if 32768 < turns.len() {
        return Err(Fault::Overlong.at(0));
    }
    if p.len() < 8192 || s.len() < 8192 {
        return Err(Fault::ShortTable.at(0)); // no fresh table
    }
    reader::make(text, short, p)?;
    Ok(run_program(p, s, turns))
}

// The same in lent tables, of which a refusal changes no word. `short` tells of any other slice.
pub fn run_into(
    text: &[u8],
    turns: &[u8],
    short: bool,
    program: &mut [u16],
    state: &mut [u16],
) -> Result<Outcome, Refusal>
    ensures { RunsInto text.now turns.now program.old state.old short result program.new state.new }
{
    let mut p = [0u16; 8192];
    let mut s = [0u16; 8192];
    let any = (program.len() < 8192) | ((state.len() < 8192) | short);
    let outcome = make(text, turns, any, &mut p, &mut s)?;
    table::copy_table(program, &p);
    table::copy_table(state, &s);
    Ok(outcome)
}

// Reads the script into the program table and plays the turns on the state table. A refusal changes no word.
pub fn run(
    text: &[u8],
    turns: &[u8],
    program: &mut [u16],
    state: &mut [u16],
) -> Result<Outcome, Refusal>
    ensures { Runs text.now turns.now program.old state.old result program.new state.new }
{
    run_into(text, turns, false, program, state)
}
