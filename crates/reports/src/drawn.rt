// The objects of a run as they are drawn.
ghost use Rattle.std.specs.Prelude.{◌≡◌, ◌≤◌, length};
ghost use Rattle.rules.specs.Mosts as Most;
ghost use Rattle.listing.specs.Outputs.{printed_in, output_in};
ghost use Rattle.printing.specs.Printing.{Tells};
ghost use Rattle.reports.specs.DrawnTexts.{graph_text, drawn_text};

use rules::Refusal;

// The drawing of a script and a list of turns, into an output that is long enough; or its refusal.
fn write_graph(text: &[u8], turns: &[u8], output: &mut [u8]) -> Result<usize, Refusal>
    requires { 65536 ≤ length output.old }
    ensures { Tells (graph_text text.now turns.now) output.old result output.new }
{
    let mut program = [0u16; 8192];
    let mut state = [0u16; 8192];
    drawing::draw(text, turns, &mut program, &mut state, output)
}

// Prints the objects of the run of an input of boxrun as a graph in the DOT language; or the refusal. An output under 65,536 bytes is refused with 9
// and stays as it was.
pub fn print_drawn(input: &[u8], output: &mut [u8]) -> Result<usize, Refusal>
    ensures value { result ≡ printed_in Most.drawing (drawn_text input.now) output.old }
    ensures output_after { output.new ≡ output_in Most.drawing (drawn_text input.now) output.old }
{
    printing::print_parts(input, 65536, output, |text, turns, _, output| {
        write_graph(text, turns, output)
    })
}
