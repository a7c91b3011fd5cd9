// Reports as they are printed: the objects that a thread reaches after a run, all of its objects drawn, and whether two of its turns race.
#![tactic(auto)]

mod drawn;
mod raced;

ghost use Rattle.std.specs.Prelude.{◌≡◌, ◌≤◌, length};
ghost use Rattle.buffer.specs.Outputs.{HasRoom, Wrote};
ghost use Rattle.listing.specs.Outputs.{printed_of, output_after};
ghost use Rattle.printing.specs.Printing.{Tells};
ghost use Rattle.reports.specs.ReachedLines.{numbers_text, reached_line, report_text, reached_text};

use buffer::Output;
pub use drawn::print_drawn;
pub use raced::print_race;
use rules::Refusal;

// Numbers, each after a space.
fn put_numbers(out: &mut Output, numbers: &[u16])
    requires { HasRoom 1536 out.old × (length numbers.now ≤ 256) }
    ensures { Wrote 1536 out.old out.new (numbers_text numbers.now) }
{
    for number in numbers {
        out.put_number(*number as usize);
    }
}

// The line of the objects reached.
fn put_reached(out: &mut Output, objects: &[u16])
    requires { HasRoom 1546 out.old × (length objects.now ≤ 256) }
    ensures { Wrote 1546 out.old out.new (reached_line objects.now) }
{
    out.put_text(b"(reached");
    put_numbers(out, objects);
    out.put_text(b")\n");
}

// The report on a script and a list of turns, into an output that is long enough; or its refusal.
fn write_report(
    text: &[u8],
    turns: &[u8],
    thread: usize,
    output: &mut [u8],
) -> Result<usize, Refusal>
    requires { 32768 ≤ length output.old }
    ensures { Tells (report_text text.now turns.now thread) output.old result output.new }
{
    let mut program = [0u16; 8192];
    let mut state = [0u16; 8192];
    let mut list = [0u16; 256];
    let n = reach::reach(text, turns, &mut program, &mut state, thread, &mut list)?;
    let mut out = Output::new(output);
    put_reached(&mut out, &list[..n]);
    Ok(out.at)
}

// Prints the objects that a thread reaches after the run of an input of boxrun, by rising number; or the refusal. An output under 32,768 bytes is refused
// with 9 and stays as it was.
pub fn print_reached(input: &[u8], thread: usize, output: &mut [u8]) -> Result<usize, Refusal>
    ensures value { result ≡ printed_of (reached_text input.now thread) output.old }
    ensures output_after { output.new ≡ output_after (reached_text input.now thread) output.old }
{
    printing::print_parts(input, 32768, output, |text, turns, _, output| {
        write_report(text, turns, thread, output)
    })
}
