// The drawing: a run, and then its objects as a directed graph in the DOT language, written into a lent buffer. docs/DRAWING.md has the text.
// A table is lent as a slice, and each contract says `8192 ≤ length` (kept: crate table says why).
#![tactic(auto)]

mod graph;

ghost use Rattle.drawing.specs.Drawings.{DrawsState, Draws};

use buffer::Output;
use graph::put_drawing;
use rules::{Fault, Refusal};

// Runs the turns, then draws the objects: how many bytes are written. A refusal changes no word and no byte; bytes past the text keep their value.
pub fn draw(
    text: &[u8],
    turns: &[u8],
    program: &mut [u16],
    state: &mut [u16],
    buffer: &mut [u8],
) -> Result<usize, Refusal>
    ensures { Draws text.now turns.now program.old state.old buffer.old result program.new state.new buffer.new }
{
    run::run_into(text, turns, buffer.len() < 65536, program, state)?;
    draw_on(state, buffer)
}

// The objects of a state table that holds a run. What is too short to be one, or to hold every drawing, is refused with 9.
pub fn draw_on(s: &[u16], buffer: &mut [u8]) -> Result<usize, Refusal>
    ensures { DrawsState s.now buffer.old result buffer.new }
{
    if s.len() < 8192 || buffer.len() < 65536 {
        return Err(Fault::ShortTable.at(0));
    }
    let mut out = Output::new(buffer);
    put_drawing(&mut out, s);
    Ok(out.at)
}
