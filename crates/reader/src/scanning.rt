// All lines of a text, one after the other, each written to the table once it has passed.
ghost use Rattle.std.specs.Prelude.{◌≡◌, cond, [], ◌≤◌, ◌<◌, length, drop, get_or};
ghost use Rattle.rules.specs.Numbers as No;
ghost use Rattle.rules.specs.Numbers.{number};
ghost use Rattle.rules.specs.Reading.{lines_before};
ghost use Rattle.rules.specs.Text.{allowed, stray, lines};
ghost use Rattle.reader.specs.Sofar.{edition_of};
ghost use Rattle.reader.specs.Scanning.{Put, Finishes, Scans};

use super::counts::Counts;
use super::faults::{Place, Sofar, after_line, fault};
use super::finder::find_lf;
use rules::{Fault, Form, Refusal};

// How many lines stand before those that are read: the one that names the edition.
pub fn lines_before(second: bool) -> usize
    ensures value { result ≡ lines_before (edition_of second) }
    ensures upper_bound { result ≤ 1 }
{
    if second { 1 } else { 0 }
}

// "Bytes are a to z, 0 to 9, brackets, space and LF."
pub fn is_allowed(b: u8) -> bool
    ensures { result ≡ allowed b }
{
    matches!(b, b'a'..=b'z' | b'0'..=b'9' | b'(' | b')' | b' ' | b'\n')
}

// Whether a byte outside the list stands in a part of the text.
fn is_stray(s: &[u8]) -> bool
    ensures { result ≡ stray s.now }
{
    s.iter().any(|b| !is_allowed(*b))
}

// Why the line at a place is no form: a stray byte in it, or what it says.
fn unfit_fault(s: &[u8], at: usize) -> Fault
    requires { at ≤ length s.now }
    ensures { number result ≡ cond (stray (get_or (lines (drop at s.now)) 0 [])) No.stray_byte No.malformed }
{
    let end = find_lf(s, at);
    if is_stray(&s[at..end]) {
        return Fault::StrayByte;
    }
    Fault::Malformed
}

// Line n of the text goes into the table, after b blocks.
fn put_line(words: &mut [u16], n: usize, b: usize, l: grammar::Line)
    requires { (8192 ≤ length words.old) × (n < 672) }
    ensures { Put n b l words.old words.new }
{
    match l.form {
        Form::Thread | Form::Method => {
            if b < 64 {
                table::add_opener(words, n, b, l.form.number());
            }
        }
        Form::NoForm
        | Form::Kind
        | Form::Give
        | Form::Value
        | Form::Field
        | Form::Swap
        | Form::Call
        | Form::New
        | Form::Cast
        | Form::Spawn
        | Form::Send
        | Form::Recv
        | Form::Copy => {
            table::add_line(words, n, l.form.number(), l.a, l.b, l.c, l.d, l.e, l.f);
        }
    }
}

// After the last line, whose number is told: 7, "no block, or the last one open", or the counts.
fn finish(r: Sofar, lines: usize, line: usize) -> Result<Counts, Refusal>
    requires { (r.kinds ≤ 32) × (r.blocks ≤ 64) × (lines ≤ 672) }
    ensures { Finishes r lines line result }
{
    let is_open = r.place != Place::Outside;
    if r.blocks == 0 || is_open {
        return Err(Fault::Unfinished.at(line));
    }
    Ok(Counts {
        kinds: r.kinds,
        blocks: r.blocks,
        lines,
    })
}

// All lines of a text of this edition into a table that holds none yet.
pub fn scan_lines(
    m: rules::Mosts,
    second: bool,
    text: &[u8],
    words: &mut [u16],
) -> Result<Counts, Refusal>
    requires { (m.kinds ≤ 32) × (m.blocks ≤ 64) × (m.lets ≤ 512) × (length text.now ≤ 16384) × (8192 ≤ length words.old) }
    ensures { Scans m (edition_of second) text.now words.old result words.new }
{
    let before = lines_before(second);
    let mut r = Sofar {
        second,
        kinds: 0,
        blocks: 0,
        lets: 0,
        place: Place::Outside,
        filled: 0,
    };
    let mut n: usize = 0;
    let mut at: usize = 0;
    // no index over the text is counted: each line tells where the next one stands
    while at < text.len() {
        let line = n + before;
        let Some(l) = grammar::line_at(text, at) else {
            return Err(unfit_fault(text, at).at(line));
        };
        if let Err(found) = fault(m, r, l) {
            return Err(found.at(line));
        }
        put_line(words, n, r.blocks, l);
        r = after_line(r, l.form);
        n += 1; // the lines have no list that could be counted along
        at = l.end;
    }
    finish(r, n, n + before)
}
