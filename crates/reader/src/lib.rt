// Reading a script into a program table, and the line finder.
#![tactic(auto)]

mod counts;
mod faults;
mod finder;
mod linking;
mod scanning;

ghost use Rattle.std.specs.Prelude.{◌≡◌};
ghost use Rattle.rules.specs.Calls.{read_call, program_after};
ghost use Rattle.rules.specs.Mosts.{mosts};
ghost use Rattle.rules.specs.Tables.{edition_word};
ghost use Rattle.reader.specs.ReadAnswers.{Answers, Makes};
ghost use Rattle.reader.specs.Sofar.{edition_of};

pub use finder::{find_line, line_start};
use linking::first_dangling;
use rules::{Fault, Refusal};
pub use scanning::is_allowed;
use scanning::{lines_before, scan_lines};

// The edition's word in the table. (There are two editions: a flag while a text is scanned, a number in the table.)
fn edition_word(second: bool) -> u16
    ensures { result ≡ edition_word (edition_of second) }
{
    if second { 2 } else { 0 }
}

// The one way in for a text: reads it into a fresh table. `short` tells that a slice which the caller was lent is under its length: 9, after 1.
// After a refusal the words are of no use.
pub fn make(text: &[u8], short: bool, words: &mut [u16]) -> Result<(), Refusal>
    ensures { Makes text.now short words.old result words.new }
{
    if 16384 < text.len() {
        return Err(Fault::Overlong.at(0));
    }
    if short {
        return Err(Fault::ShortTable.at(0));
    }
    if words.len() < 8192 {
        return Err(Fault::ShortTable.at(0)); // no fresh table
    }
    let mosts = rules::Mosts {
        kinds: 32,
        blocks: 64,
        lets: 512,
        objects: 256,
        threads: 16,
    };
    let head = grammar::script_end(text);
    let second = head.is_some();
    let counts = scan_lines(mosts, second, &text[head.unwrap_or(0)..], words)?;
    if let Some(line) = first_dangling(words, counts) {
        return Err(Fault::Dangling.at(line + lines_before(second)));
    }
    table::put_counts(
        words,
        counts.kinds,
        counts.blocks,
        counts.lines,
        edition_word(second),
    );
    Ok(())
}

// Reads a script into a program table. A refusal changes no word.
pub fn read(text: &[u8], table: &mut [u16]) -> Result<(), Refusal>
    ensures value { Answers (read_call mosts text.now table.old) result }
    ensures table_after { table.new ≡ program_after (read_call mosts text.now table.old) table.old }
{
    let mut words = [0u16; 8192];
    make(text, table.len() < 8192, &mut words)?;
    table::copy_table(table, &words);
    Ok(())
}
