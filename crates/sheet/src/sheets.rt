// The sheets: of an input that is too long, of one whose last line has a fault, and of a script with its turns. Each ends within 8,192 bytes.
ghost use Rattle.std.specs.Prelude.{◌≡◌, ◌++◌, ◌≤◌, length};
ghost use Rattle.rules.specs.Numbers.{number};
ghost use Rattle.rules.specs.Reading.{turned_away};
ghost use Rattle.buffer.specs.Outputs.{HasRoom, Wrote};
ghost use Rattle.run.specs.RunAnswers.{outcome, told};
ghost use Rattle.sheet.specs.Ticks.{reading_of};
ghost use Rattle.table.specs.ProgramTable.{fresh_table};
ghost use Rattle.sheet.specs.SheetText.{away_sheet, faulty_end, faulty_sheet, filed_sheet, four_text, heading, holds_filed, part_one, part_two, refused_end, three_text, unread_end, verdict};
ghost use Rattle.sheet.specs.Sheets.{WritesRan};

use super::examined::{Examined, examine};
use super::parts::{
    put_four, put_read, put_tick, put_turn_count, put_two, put_unexamined, put_verdict,
};
use super::refusals::{put_script_refusal, put_turns_refusal};
use super::rows::put_rows;
use buffer::Output;
use rules::{Fault, Refusal};
use run::Outcome;

// 1, of a script that is refused.
fn put_refused(out: &mut Output, refused: Refusal, text: &[u8])
    requires { HasRoom 446 out.old }
    ensures { Wrote 446 out.old out.new (part_one (turned_away (number refused.fault) refused.line) text.now) }
{
    put_tick(out, false, b"1. The script reads clean\n");
    put_script_refusal(out, refused, text);
}

// All that could not be looked at after it.
fn put_unread(out: &mut Output)
    requires { HasRoom 232 out.old }
    ensures { Wrote 232 out.old out.new unread_end }
{
    put_unexamined(out, b"2. Every record carries a capability\n");
    put_unexamined(out, b"3. The list of turns is filed\n");
    put_unexamined(out, b"4. Guards change no result\n");
    put_verdict(out, false);
}

// Of an input that is turned away whole; of its text nothing is looked at.
pub fn put_away(out: &mut Output, fault: Fault)
    requires { HasRoom 8192 out.old }
    ensures { Wrote 8192 out.old out.new (heading ++ away_sheet (number fault)) }
{
    out.put_text(b"Check sheet of the freezer box\n\n");
    put_refused(out, fault.at(0), b"");
    put_unread(out);
}

// What follows where the last line has a fault.
fn put_faulty_end(out: &mut Output, refused: Refusal, input: &[u8])
    requires { HasRoom 550 out.old }
    ensures { Wrote 550 out.old out.new (faulty_end (number refused.fault) refused.line input.now) }
{
    put_tick(out, false, b"3. The list of turns is filed\n");
    put_turns_refusal(out, refused, input);
    put_unexamined(out, b"4. Guards change no result\n");
    put_verdict(out, false);
}

// 1 and 2, of a text.
fn put_script(out: &mut Output, text: &[u8])
    requires { HasRoom 4400 out.old }
    ensures { Wrote 4400 out.old out.new (part_one (reading_of text.now) text.now ++ part_two (reading_of text.now)) }
{
    let mut p = [0u16; 8192];
    match reader::make(text, false, &mut p) {
        Ok(()) => {
            put_read(out, &p);
            put_two(out, &p);
        }
        Err(refused) => {
            put_refused(out, refused, text);
            put_unexamined(out, b"2. Every record carries a capability\n");
        }
    }
}

// Of an input whose last line has a fault; the text is what stands before it.
pub fn put_faulty(out: &mut Output, text: &[u8], refused: Refusal, input: &[u8])
    requires { HasRoom 8192 out.old }
    ensures { Wrote 8192 out.old out.new (heading ++ faulty_sheet (reading_of text.now) text.now (number refused.fault) refused.line input.now) }
{
    out.put_text(b"Check sheet of the freezer box\n\n");
    put_script(out, text);
    put_faulty_end(out, refused, input);
}

// What follows a script that is refused, where n turns are filed.
fn put_refused_end(out: &mut Output, n: usize)
    requires { HasRoom 231 out.old }
    ensures { Wrote 231 out.old out.new (refused_end n) }
{
    put_unexamined(out, b"2. Every record carries a capability\n");
    put_tick(out, true, b"3. The list of turns is filed\n");
    put_turn_count(out, n);
    put_unexamined(out, b"4. Guards change no result\n");
    put_verdict(out, false);
}

// 3, of a list that was played.
fn put_three(out: &mut Output, n: usize, counts: &[u16; 85])
    requires { HasRoom 1644 out.old }
    ensures { Wrote 1644 out.old out.new (three_text n counts.now) }
{
    put_tick(out, true, b"3. The list of turns is filed\n");
    put_turn_count(out, n);
    put_rows(out, counts);
}

// 4 and the verdict.
fn put_last(out: &mut Output, guarded: Outcome, found: &Examined)
    requires { HasRoom 270 out.old }
    ensures { Wrote 270 out.old out.new (four_text (outcome guarded) (told found.now.stripped) found.now.same found.now.played ++ verdict found.now.same) }
{
    put_four(out, guarded, found);
    put_verdict(out, found.same);
}

// Of a run that was made, in its two tables: whether all four conditions hold.
fn put_ran(
    out: &mut Output,
    text: &[u8],
    turns: &[u8],
    p: &[u16],
    s: &mut [u16],
    guarded: Outcome,
) -> bool
    requires { HasRoom 6256 out.old × (8192 ≤ length p.now) × (8192 ≤ length s.old) × (length turns.now ≤ 32768) }
    ensures { WritesRan text.now turns.now p.now s.old guarded out.old out.new result }
{
    let found = examine(text, turns, p, s);
    put_read(out, p);
    put_two(out, p);
    put_three(out, turns.len(), &found.counts);
    put_last(out, guarded, &found);
    found.same
}

// In two fresh tables.
fn put_filed_on(out: &mut Output, text: &[u8], turns: &[u8], p: &mut [u16], s: &mut [u16]) -> bool
    requires { HasRoom 8192 out.old × (p.old ≡ fresh_table) × (s.old ≡ fresh_table) × (length turns.now ≤ 32768) }
    ensures wrote { Wrote 8192 out.old out.new (heading ++ filed_sheet (reading_of text.now) text.now turns.now) }
    ensures holds_value { result ≡ holds_filed (reading_of text.now) turns.now }
{
    let made = run::make(text, turns, false, p, s);
    out.put_text(b"Check sheet of the freezer box\n\n");
    match made {
        Ok(guarded) => put_ran(out, text, turns, p, s, guarded),
        Err(refused) => {
            put_refused(out, refused, text);
            put_refused_end(out, turns.len());
            false
        }
    }
}

// Of a script and its list of turns: whether all four conditions hold.
pub fn put_filed(out: &mut Output, text: &[u8], turns: &[u8]) -> bool
    requires { HasRoom 8192 out.old × (length turns.now ≤ 32768) }
    ensures wrote { Wrote 8192 out.old out.new (heading ++ filed_sheet (reading_of text.now) text.now turns.now) }
    ensures holds_value { result ≡ holds_filed (reading_of text.now) turns.now }
{
    let mut p = [0u16; 8192];
    let mut s = [0u16; 8192];
    put_filed_on(out, text, turns, &mut p, &mut s)
}
