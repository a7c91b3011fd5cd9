// The printed run: a run, and what document 01 prints of it, written into a lent output.
// A table is lent as a slice, and each contract says `8192 ≤ length` (kept: crate table says why).
#![tactic(auto)]

mod answers;
mod state_lines;
mod values;

ghost use Rattle.std.specs.Prelude.{◌≡◌};
ghost use Rattle.rules.specs.Run.{refused};
ghost use Rattle.rules.specs.Listing.{answer_line};
ghost use Rattle.table.specs.ProgramTable.{fresh_table};
ghost use Rattle.listing.specs.Outputs.{run_text, printed_of, output_after};

use answers::put_refused;
pub use answers::{Answer, put_answer};
use buffer::Output;
use rules::{Fault, Refusal};
use state_lines::put_state;

// In two fresh tables.
fn print_on(
    text: &[u8],
    turns: &[u8],
    program: &mut [u16],
    state: &mut [u16],
    output: &mut [u8],
) -> Result<usize, Refusal>
    requires { (program.old ≡ fresh_table) × (state.old ≡ fresh_table) }
    ensures value { result ≡ printed_of (run_text text.now turns.now) output.old }
    ensures output_after { output.new ≡ output_after (run_text text.now turns.now) output.old }
{
    if output.len() < 32768 {
        return Err(Fault::ShortTable.at(0));
    }
    let answer = run::make(text, turns, false, program, state);
    let mut out = Output::new(output);
    put_answer(&mut out, Answer::from(answer));
    if answer.is_ok() {
        put_state(&mut out, state);
    }
    Ok(out.at)
}

// Runs the turns and prints what document 01 says, a refusal too: how many bytes are written. An output under 32,768 bytes is refused with 9 and stays
// as it was.
pub fn print_run(text: &[u8], turns: &[u8], output: &mut [u8]) -> Result<usize, Refusal>
    ensures value { result ≡ printed_of (run_text text.now turns.now) output.old }
    ensures output_after { output.new ≡ output_after (run_text text.now turns.now) output.old }
{
    let mut program = [0u16; 8192];
    let mut state = [0u16; 8192];
    print_on(text, turns, &mut program, &mut state, output)
}

// Prints a refusal that is found before the run's, as that of a faulty line of turns. (Its number is a parameter, which may not be narrowed.)
pub fn print_refusal(number: u16, line: usize, output: &mut [u8]) -> Result<usize, Refusal>
    ensures value { result ≡ printed_of (answer_line (refused number line)) output.old }
    ensures output_after { output.new ≡ output_after (answer_line (refused number line)) output.old }
{
    if output.len() < 32768 {
        return Err(Fault::ShortTable.at(0));
    }
    let mut out = Output::new(output);
    put_refused(&mut out, number, line);
    Ok(out.at)
}
