// The check sheet: the four conditions for one script and one list of turns, each with its tick.
// A table is lent as a slice, and each contract says `8192 ≤ length` (kept: crate table says why).
#![tactic(auto)]

mod cap_lines;
mod examined;
mod parts;
mod refusals;
mod rows;
mod sheets;

ghost use Rattle.std.specs.Prelude.{◌≡◌, ◌≤◌, length};
ghost use Rattle.buffer.specs.Outputs.{HasRoom, Wrote};
ghost use Rattle.listing.specs.Outputs.{output_after};
ghost use Rattle.replay.specs.Given.{cut_by, misfit_told};
ghost use Rattle.sheet.specs.SheetText.{checked_of, holds_of, sheet_by, sheet_of};

use buffer::Output;
use replay::Misfit;
use rules::Fault;
use sheets::{put_away, put_faulty, put_filed};

// A sheet that was written: how many bytes it has, and whether all four conditions hold.
#[derive(Clone, Copy, Debug, PartialEq, Eq)]
pub struct Sheet {
    pub length: usize,
    pub holds: bool,
}

// The sheet of an input that has no parts.
fn put_misfit(out: &mut Output, misfit: Misfit, input: &[u8])
    requires { HasRoom 8192 out.old × (cut_by misfit.script ≤ length input.now) }
    ensures { Wrote 8192 out.old out.new (sheet_by input.now (misfit_told misfit.refusal misfit.script input.now)) }
{
    match misfit.script {
        Some(at) => put_faulty(out, &input[..at], misfit.refusal, input),
        None => put_away(out, misfit.refusal.fault),
    }
}

// The sheet of an input: whether all four conditions hold.
fn put_sheet(out: &mut Output, input: &[u8]) -> bool
    requires { HasRoom 8192 out.old }
    ensures wrote { Wrote 8192 out.old out.new (sheet_of input.now) }
    ensures holds_value { result ≡ holds_of input.now }
{
    let mut turns = [0u8; 32768];
    match replay::split(input, &mut turns) {
        Ok(parts) => put_filed(out, &input[..parts.script], &turns[..parts.turns]),
        Err(misfit) => {
            put_misfit(out, misfit, input);
            false
        }
    }
}

// Prints the check sheet of an input of boxrun. An output under 32,768 bytes is refused with 9 and stays as it was.
pub fn print_sheet(input: &[u8], output: &mut [u8]) -> Result<Sheet, Fault>
    ensures value { result ≡ checked_of input.now output.old }
    ensures output_after { output.new ≡ output_after (sheet_of input.now) output.old }
{
    if output.len() < 32768 {
        return Err(Fault::ShortTable);
    }
    let mut out = Output::new(output);
    let holds = put_sheet(&mut out, input);
    Ok(Sheet {
        length: out.at,
        holds,
    })
}
