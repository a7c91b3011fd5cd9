// The stripped script: its run, and its text.
#![tactic(auto)]

ghost use Rattle.std.specs.Prelude.{false, ◌≤◌, length};
ghost use Rattle.rules.specs.Mosts.{mosts};
ghost use Rattle.rules.specs.Calls.{inputs};
ghost use Rattle.stripping.specs.StrippedRuns.{MakesStripped};
ghost use Rattle.stripping.specs.StrippedTexts.{SaysAgain, StrippedText, Says, PrintsStripped};

use buffer::Output;
use rules::{Fault, Refusal};
use run::Outcome;

// The run of the stripped script, in two fresh tables: "once it is read, every K in it is changed to unsafe". A refusal is that of `run::make`, after
// which the words are of no use.
pub fn make_stripped(
    text: &[u8],
    turns: &[u8],
    p: &mut [u16],
    s: &mut [u16],
) -> Result<Outcome, Refusal>
    ensures { MakesStripped text.now turns.now p.old s.old result p.new s.new }
{
    if 32768 < turns.len() { // before the script's own faults
        return Err(Fault::Overlong.at(0));
    }
    if p.len() < 8192 || s.len() < 8192 {
        return Err(Fault::ShortTable.at(0)); // no fresh table
    }
    reader::make(text, false, p)?;
    table::strip_program(p);
    Ok(run::run_program(p, s, turns))
}

// Writes the script that reads to a table, and a line after it; or answers the refusal that stands for them.
fn write_table(table: &[u16], last: &[u8], output: &mut [u8]) -> Result<usize, Refusal>
    requires { (8192 ≤ length table.now) × (65536 ≤ length output.old) }
    ensures { Says (SaysAgain table.now last.now) output.old result output.new }
{
    let mut text = [0u8; 16384];
    // a match, since through `map_err` the proof does not see which fault it is
    let n = match writer::write(table, &mut text) {
        Ok(n) => n,
        Err(fault) => return Err(fault.at(0)),
    };
    if 65536 - n < last.len() {
        return Err(Fault::Overlong.at(0)); // no input of boxrun
    }
    let mut out = Output::new(output);
    out.put_text(&text[..n]);
    out.put_text(last);
    Ok(out.at)
}

// The stripped script of a script and a list of turns, and the line that says these.
fn write_stripped(
    text: &[u8],
    turns: &[u8],
    last: &[u8],
    output: &mut [u8],
) -> Result<usize, Refusal>
    requires { 65536 ≤ length output.old }
    ensures { Says (StrippedText (inputs mosts text.now turns.now false) last.now) output.old result output.new }
{
    if 32768 < turns.len() {
        return Err(Fault::Overlong.at(0));
    }
    let mut table = [0u16; 8192];
    reader::make(text, false, &mut table)?;
    table::strip_program(&mut table);
    write_table(&table, last, output)
}

// Prints an input of boxrun with its script stripped, and its line of turns as it stands; or a refusal. An output under 65,536 bytes is refused with 9
// and stays as it was.
pub fn print_stripped(input: &[u8], output: &mut [u8]) -> Result<usize, Refusal>
    ensures { PrintsStripped input.now output.old result output.new }
{
    printing::print_parts(input, 65536, output, write_stripped)
}
