// The parts of the sheet: a tick's line and what stands under it.
ghost use Rattle.std.specs.Prelude.{◌++◌, ◌≤◌, length};
ghost use Rattle.buffer.specs.Outputs.{HasRoom, Wrote};
ghost use Rattle.buffer.specs.Writing.{number_part};
ghost use Rattle.run.specs.RunAnswers.{outcome, told};
ghost use Rattle.sheet.specs.SheetText.{cap_text, cap_counts, compared_text, four_text, mark, naming_of, read_text, tick, turn_count, two_text, unexamined, verdict, words_text};
ghost use Rattle.sheet.specs.SheetParts.{FirstNumber, WritesProgram};

use super::cap_lines::{count_making, put_naming};
use super::examined::Examined;
use buffer::Output;
use listing::Answer;
use rules::Cap;
use run::Outcome;

fn put_mark(out: &mut Output, stands: bool)
    requires { HasRoom 4 out.old }
    ensures { Wrote 4 out.old out.new (mark stands) }
{
    out.put_text(if stands { b"[x] " } else { b"[ ] " });
}

// A condition's line.
pub fn put_tick(out: &mut Output, stands: bool, title: &[u8])
    requires { HasRoom 44 out.old × (length title.now ≤ 40) }
    ensures { Wrote 44 out.old out.new (tick stands title.now) }
{
    put_mark(out, stands);
    out.put_text(title);
}

// The line of a condition that could not be looked at.
pub fn put_unexamined(out: &mut Output, title: &[u8])
    requires { HasRoom 64 out.old × (length title.now ≤ 40) }
    ensures { Wrote 64 out.old out.new (unexamined title.now) }
{
    put_mark(out, false);
    out.put_text(title);
    out.put_text(b"       not examined\n");
}

// The number of the program's first line: 1 where the text's first line names the edition.
fn first_number(p: &[u16]) -> usize
    requires { 8192 ≤ length p.now }
    ensures { FirstNumber p.now result }
{
    if table::edition(p) == 2 { 1 } else { 0 }
}

// 1, of a script that was read.
pub fn put_read(out: &mut Output, p: &[u16])
    requires { HasRoom 63 out.old × (8192 ≤ length p.now) }
    ensures { WritesProgram 63 p.now out.old out.new read_text }
{
    put_tick(out, true, b"1. The script reads clean\n");
    out.put_text(b"      ");
    out.put_number(table::line_count(p) + first_number(p));
    out.put_text(b" lines\n");
}

fn put_count(out: &mut Output, word: &[u8], n: usize)
    requires { HasRoom 41 out.old × (length word.now ≤ 35) }
    ensures { Wrote 41 out.old out.new (word.now ++ number_part n) }
{
    out.put_text(word);
    out.put_number(n);
}

fn put_cap_counts(out: &mut Output, p: &[u16])
    requires { HasRoom 165 out.old × (8192 ≤ length p.now) }
    ensures { WritesProgram 165 p.now out.old out.new cap_counts }
{
    put_count(
        out,
        b"       lines that make records: imm",
        count_making(p, Cap::Imm),
    );
    put_count(out, b", iso", count_making(p, Cap::Iso));
    put_count(out, b", local", count_making(p, Cap::Local));
    put_count(out, b", unsafe", count_making(p, Cap::Unsafe));
    out.put_text(b"\n");
}

fn put_names(out: &mut Output, p: &[u16])
    requires { HasRoom 4070 out.old × (8192 ≤ length p.now) }
    ensures { WritesProgram 4070 p.now out.old out.new naming_of }
{
    out.put_text(b"       lines that name unsafe:");
    let start = out.at;
    put_naming(out, p, first_number(p));
    if out.at == start {
        out.put_text(b" none\n");
    } else {
        out.put_text(b"\n");
    }
}

// 2, of a script that was read.
pub fn put_two(out: &mut Output, p: &[u16])
    requires { HasRoom 4279 out.old × (8192 ≤ length p.now) }
    ensures { WritesProgram 4279 p.now out.old out.new two_text }
{
    put_tick(out, true, b"2. Every record carries a capability\n");
    put_cap_counts(out, p);
    put_names(out, p);
}

// How many turns are filed.
pub fn put_turn_count(out: &mut Output, n: usize)
    requires { HasRoom 19 out.old }
    ensures { Wrote 19 out.old out.new (turn_count n) }
{
    out.put_text(b"      ");
    out.put_number(n);
    out.put_text(b" turns\n");
}

fn put_words(out: &mut Output, same: bool)
    requires { HasRoom 49 out.old }
    ensures { Wrote 49 out.old out.new (words_text same) }
{
    if same {
        out.put_text(b"       the same words, capabilities aside, after");
    } else {
        out.put_text(b"       other words, capabilities aside, after");
    }
}

// What the comparison of the tables came to.
fn put_compared(out: &mut Output, same: bool, played: usize)
    requires { HasRoom 62 out.old }
    ensures { Wrote 62 out.old out.new (compared_text same played) }
{
    put_words(out, same);
    out.put_number(played);
    out.put_text(b" turns\n");
}

// 4, of both runs.
pub fn put_four(out: &mut Output, guarded: Outcome, found: &Examined)
    requires { HasRoom 230 out.old }
    ensures { Wrote 230 out.old out.new (four_text (outcome guarded) (told found.now.stripped) found.now.same found.now.played) }
{
    put_tick(out, found.same, b"4. Guards change no result\n");
    out.put_text(b"       with guards: ");
    listing::put_answer(out, Answer::from(Ok(guarded)));
    out.put_text(b"       without:     ");
    listing::put_answer(out, Answer::from(found.stripped));
    put_compared(out, found.same, found.played);
}

pub fn put_verdict(out: &mut Output, holds: bool)
    requires { HasRoom 40 out.old }
    ensures { Wrote 40 out.old out.new (verdict holds) }
{
    if holds {
        out.put_text(b"\nVerdict: all four conditions hold\n");
    } else {
        out.put_text(b"\nVerdict: not all four conditions hold\n");
    }
}
