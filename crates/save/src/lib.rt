// An input written back: its script from the program table, and its line of turns after it.
#![tactic(auto)]

ghost use Rattle.std.specs.Prelude.{◌≡◌, ◌+◌, ◌≤◌, length};
ghost use Rattle.printing.specs.Printing.{Tells};
ghost use Rattle.save.specs.Saved.{saved, script_saved, saved_in, saved_after};

use buffer::Output;
use rules::Refusal;

// The script, and what follows it; or the script's refusal. (No table that was read is refused.)
fn save_script(text: &[u8], last: &[u8], output: &mut [u8]) -> Result<usize, Refusal>
    requires { (length text.now + length last.now ≤ 65536) × (65536 ≤ length output.old) }
    ensures { Tells (script_saved text.now last.now) output.old result output.new }
{
    let mut table = [0u16; 8192];
    reader::read(text, &mut table)?;
    // a match, since through `map_err` the proof does not see which fault it is
    let at = match writer::write(&table, output) {
        Ok(n) => n,
        Err(fault) => return Err(fault.at(0)),
    };
    let mut out = Output { buf: output, at };
    out.put_text(last);
    Ok(out.at)
}

// Prints an input again, or its refusal. An output under 65,536 bytes is refused with 9 and stays as it was.
pub fn print_saved(input: &[u8], output: &mut [u8]) -> Result<usize, Refusal>
    ensures value { result ≡ saved_in (saved input.now) output.old }
    ensures output_after { output.new ≡ saved_after (saved input.now) output.old }
{
    printing::print_parts(input, 65536, output, |text, _, last, output| {
        save_script(text, last, output)
    })
}
