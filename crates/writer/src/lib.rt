// A script written back out from its program table.
// A table is lent as a slice, and each contract says `8192 ≤ length` (kept: crate table says why).
#![tactic(auto)]

mod script_lines;

ghost use Rattle.rules.specs.Mosts.{mosts};
ghost use Rattle.rules.specs.Writer.{WriteCall};
ghost use Rattle.writer.specs.WriteAnswers.{answer_of};

use rules::Fault;
use script_lines::put_script;

// Writes the text that reads to a program table, and answers how many bytes it has. What its words say is written beside the buffer and read again:
// where that is refused, or gives other words, no text reads to the table. A refusal changes no byte.
pub fn write(table: &[u16], buffer: &mut [u8]) -> Result<usize, Fault>
    ensures { WriteCall mosts table.now buffer.old (answer_of result) buffer.new }
{
    if table.len() < 8192 || buffer.len() < 16384 {
        return Err(Fault::ShortTable);
    }
    let mut text = [0u8; 16461]; // a line more than a text may have
    let length = put_script(&mut text, table);
    let script = &text[..length];
    let mut words = [0u16; 8192];
    if reader::read(script, &mut words).is_err() || !table::same_table(table, &words) {
        return Err(Fault::NoScript);
    }
    buffer[..length].copy_from_slice(script);
    Ok(length)
}
