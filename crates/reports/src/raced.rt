// Whether two turns of a run race, as it is printed.
ghost use Rattle.std.specs.Prelude.{◌≡◌, ◌≤◌, length};
ghost use Rattle.buffer.specs.Outputs.{HasRoom, Wrote};
ghost use Rattle.listing.specs.Outputs.{printed_of, output_after};
ghost use Rattle.printing.specs.Printing.{Tells};
ghost use Rattle.reports.specs.RaceTexts.{race_line, found_line, verdict_text, race_text};

use buffer::Output;
use races::Race;
use rules::Refusal;

// The line of a race: its two turns, the object and the field.
fn put_race(out: &mut Output, race: Race)
    requires { HasRoom 31 out.old }
    ensures { Wrote 31 out.old out.new (race_line race.first race.second race.object race.field) }
{
    out.put_text(b"(race");
    out.put_number(race.first);
    out.put_number(race.second);
    out.put_number(race.object as usize);
    out.put_number(race.field as usize);
    out.put_text(b")\n");
}

// The same, or that there is none.
fn put_found(out: &mut Output, found: Option<Race>)
    requires { HasRoom 31 out.old }
    ensures { Wrote 31 out.old out.new (found_line found) }
{
    match found {
        Some(race) => put_race(out, race),
        None => out.put_text(b"(norace)\n"),
    }
}

// The verdict on a script and a list of turns, into an output that is long enough; or its refusal.
fn write_verdict(text: &[u8], turns: &[u8], output: &mut [u8]) -> Result<usize, Refusal>
    requires { 32768 ≤ length output.old }
    ensures { Tells (verdict_text text.now turns.now) output.old result output.new }
{
    let mut program = [0u16; 8192];
    let mut state = [0u16; 8192];
    let found = races::find_race(text, turns, &mut program, &mut state)?;
    let mut out = Output::new(output);
    put_found(&mut out, found);
    Ok(out.at)
}

// Prints whether two turns of the run of an input of boxrun race, and which; or the refusal. An output under 32,768 bytes is refused with 9 and stays
// as it was.
pub fn print_race(input: &[u8], output: &mut [u8]) -> Result<usize, Refusal>
    ensures value { result ≡ printed_of (race_text input.now) output.old }
    ensures output_after { output.new ≡ output_after (race_text input.now) output.old }
{
    printing::print_parts(input, 32768, output, |text, turns, _, output| {
        write_verdict(text, turns, output)
    })
}
