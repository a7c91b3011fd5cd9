// boxrun's input: "a script, then the last line (turns T ..)", taken apart, and the printing of its run.
#![tactic(auto)]

mod ending;
mod turns_line;

ghost use Rattle.std.specs.Prelude.{◌≡◌, None};
ghost use Rattle.rules.specs.Mosts.{mosts};
ghost use Rattle.rules.specs.Input.{boxrun};
ghost use Rattle.listing.specs.Outputs.{printed_of, output_after};
ghost use Rattle.replay.specs.Given.{Splits};

use ending::{last_start, lines_before};
use rules::{Fault, Refusal};
use turns_line::turns_line;

// An input taken apart: where its script ends, and how many turns stand at the front of the list.
#[derive(Clone, Copy, Debug, PartialEq, Eq)]
pub struct Parts {
    pub script: usize,
    pub turns: usize,
}

// Why an input has no parts, and where its last line starts, if that line has the fault; or it is turned away whole.
#[derive(Clone, Copy, Debug, PartialEq, Eq)]
pub struct Misfit {
    pub refusal: Refusal,
    pub script: Option<usize>,
}

// What is told of it.
impl From<Misfit> for Refusal {
    ghost from_gives = { λ m r. r ≡ m.refusal };

    fn from(misfit: Misfit) -> Refusal {
        misfit.refusal
    }
}

// The input is turned away whole.
fn whole(fault: Fault) -> Misfit
    ensures fault { result.refusal.fault ≡ fault }
    ensures line { result.refusal.line ≡ 0 }
    ensures script { result.script ≡ None }
{
    Misfit {
        refusal: fault.at(0),
        script: None,
    }
}

// Takes an input apart. The list, of a fixed length since there is no heap, is lent for the turns; one under 32,768 bytes is refused with 9.
pub fn split(input: &[u8], turns: &mut [u8]) -> Result<Parts, Misfit>
    ensures { Splits input.now turns.old result turns.new }
{
    if 65536 < input.len() {
        return Err(whole(Fault::Overlong));
    }
    if turns.len() < 32768 {
        return Err(whole(Fault::ShortTable));
    }
    let script = last_start(input);
    match turns_line(input, script, turns) {
        Ok(count) => Ok(Parts {
            script,
            turns: count,
        }),
        Err(fault) => Err(Misfit {
            refusal: fault.at(lines_before(input)),
            script: Some(script),
        }),
    }
}

// Prints what boxrun prints of its input. An output under 32,768 bytes is refused with 9 and stays as it was. (Not by crate printing's `print_parts`: what
// reads a script has no byte slice that is written to but its list of turns and its output, and so no job to which it would lend one.)
pub fn print_input(input: &[u8], output: &mut [u8]) -> Result<usize, Refusal>
    ensures value { result ≡ printed_of (boxrun mosts input.now) output.old }
    ensures output_after { output.new ≡ output_after (boxrun mosts input.now) output.old }
{
    let mut turns = [0u8; 32768];
    match split(input, &mut turns) {
        Ok(parts) => listing::print_run(&input[..parts.script], &turns[..parts.turns], output),
        Err(misfit) => {
            listing::print_refusal(misfit.refusal.fault.number(), misfit.refusal.line, output)
        }
    }
}
