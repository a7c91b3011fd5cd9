// A refusal as the sheet tells it: its number and line, the line as text, a mark under it, and a hint.
ghost use Rattle.std.specs.Prelude.{ℕ, ◌≡◌, ◌++◌, map, ◌+◌, ◌≤◌, ◌<◌, length};
ghost use Rattle.rules.specs.Numbers.{number};
ghost use Rattle.rules.specs.Text.{bytes};
ghost use Rattle.buffer.specs.Outputs.{HasRoom, Wrote};
ghost use Rattle.buffer.specs.Writing.{number_part};
ghost use Rattle.sheet.specs.SheetText.{ends_in_cr, unended, hint, malformed_hint, mark_under, refusal, script_refusal, shown, stray_hint, turns_hint, turns_refusal, word_text};
ghost use Rattle.sheet.specs.SheetText.{visible as visible_byte, editor_line};

use buffer::Output;
use rules::{Fault, Refusal};

// A byte as a screen can show it.
fn visible(b: u8) -> u8
    ensures { result ≡ visible_byte b }
{
    if (b' '..=b'~').contains(&b) { b } else { b'?' }
}

// What stands under a byte of a line that is refused.
fn mark(fault: Fault, b: u8) -> u8
    ensures { result ≡ mark_under (number fault) b }
{
    if fault == Fault::StrayByte && reader::is_allowed(b) {
        b' '
    } else {
        b'^'
    }
}

// A line, each byte as it is to be shown: by any g that tells what the closure answers.
fn put_line<F: Fn(u8) -> u8>(out: &mut Output, line: &[u8], byte: F)
    requires { HasRoom (length line.now) out.old × F.IsAlwaysCallable byte }
    ensures text { (g : ℕ → ℕ) → ((b r : ℕ) → b < 256 → F.post byte b r → r ≡ g b) → Wrote (length line.now) out.old out.new (map g line.now) }
    ensures same_length { length out.new.buf.now ≡ length out.old.buf.now }
    ensures same_buffer { out.new.buf.ghost_name ≡ out.old.buf.ghost_name }
    ensures end { out.new.at ≤ out.old.at + length line.now }
{
    for b in line {
        out.put_byte(byte(*b));
    }
}

// A line, and the marks under it; nothing of an empty one.
fn put_shown(out: &mut Output, fault: Fault, line: &[u8])
    requires { HasRoom 216 out.old }
    ensures { Wrote 216 out.old out.new (shown (number fault) line.now) }
{
    if line.is_empty() {
        return;
    }
    let front = &line[..line.len().min(100)];
    out.put_text(b"       ");
    put_line(out, front, visible);
    out.put_text(b"\n       ");
    put_line(out, front, |b| mark(fault, b));
    out.put_text(b"\n");
}

fn stray_hint(cr: bool) -> &'static [u8]
    ensures { (result.now ≡ stray_hint cr) × (length result.now ≤ 110) }
{
    if cr {
        b"       hint: the line ends in CR LF; save the file with LF alone\n"
    } else {
        b"       hint: only a to z, 0 to 9, brackets, space and LF may stand in a script\n"
    }
}

fn malformed_hint(cut: bool) -> &'static [u8]
    ensures { (result.now ≡ malformed_hint cut) × (length result.now ≤ 110) }
{
    if cut {
        b"       hint: the last line has no LF at its end; was the file cut off?\n"
    } else {
        b"       hint: no form of a script, or not in its place\n"
    }
}

#[tactic(auto, unfolding(crate::specs::SheetText::hint))]
fn hint(fault: Fault, cr: bool, cut: bool) -> &'static [u8]
    ensures { (result.now ≡ hint (number fault) cr cut) × (length result.now ≤ 110) }
{
    match fault {
        Fault::Overlong => b"       hint: a script has at most 16384 bytes, an input 65536\n",
        Fault::StrayByte => stray_hint(cr),
        Fault::Malformed => malformed_hint(cut),
        Fault::OverCount =>
            b"       hint: a number over 255, or more kinds, blocks, slots or lets than there is room for\n",
        Fault::Unbound => b"       hint: a slot is used that no line has filled yet\n",
        Fault::SelfTaken =>
            b"       hint: a method may read its own object, slot 0, and not take it\n",
        Fault::Unfinished =>
            b"       hint: the last block has no give, or there is no block; was the file cut off?\n",
        _ =>
            b"       hint: no such kind or block, a block of the wrong sort, or other operands than the kind's fields\n",
    }
}

#[tactic(auto, unfolding(crate::specs::SheetText::turns_hint))]
fn turns_hint(cr: bool, cut: bool) -> &'static [u8]
    ensures { (result.now ≡ turns_hint cr cut) × (length result.now ≤ 110) }
{
    if cr {
        return stray_hint(true);
    }
    if cut {
        return malformed_hint(true);
    }
    b"       hint: the last line is to be (turns T ..), each T a number up to 255\n"
}

fn editor_line(line: usize) -> usize
    ensures { result ≡ editor_line line }
{
    if line < 65536 { line + 1 } else { 0 }
}

// Whether a line ends in CR.
fn ends_in_cr(text: &[u8], n: usize) -> bool
    ensures { result ≡ ends_in_cr n text.now }
{
    reader::find_line(text, n).ends_with(b"\r")
}

// Whether a line ends where the text does, without an LF.
fn is_unended(text: &[u8], n: usize) -> bool
    ensures { result ≡ unended n text.now }
{
    let line = reader::find_line(text, n);
    !line.is_empty() && line.len() == text.len() - reader::line_start(text, n)
}

// The rest of a refusal's first line.
fn put_editor_line(out: &mut Output, line: usize)
    requires { HasRoom 26 out.old }
    ensures { Wrote 26 out.old out.new (bytes ", in an editor line" ++ (number_part (editor_line line) ++ bytes "\n")) }
{
    out.put_text(b", in an editor line");
    out.put_number(editor_line(line));
    out.put_text(b"\n");
}

#[tactic(auto, unfolding(crate::specs::SheetText::word_text))]
fn word(fault: Fault) -> &'static [u8]
    ensures { (result.now ≡ word_text (number fault)) × (length result.now ≤ 12) }
{
    match fault {
        Fault::Overlong => b" overlong",
        Fault::StrayByte => b" stray byte",
        Fault::Malformed => b" malformed",
        Fault::OverCount => b" over count",
        Fault::Unbound => b" unbound",
        Fault::SelfTaken => b" self taken",
        Fault::Unfinished => b" unfinished",
        _ => b" dangling",
    }
}

// A refusal's number and its word.
fn put_number_word(out: &mut Output, fault: Fault)
    requires { HasRoom 18 out.old }
    ensures { Wrote 18 out.old out.new (number_part (number fault) ++ word_text (number fault)) }
{
    out.put_number(fault.number() as usize);
    out.put_text(word(fault));
}

fn put_refusal(out: &mut Output, refused: Refusal, text: &[u8])
    requires { HasRoom 292 out.old }
    ensures { Wrote 292 out.old out.new (refusal (number refused.fault) refused.line text.now) }
{
    out.put_text(b"       refused:");
    put_number_word(out, refused.fault);
    out.put_text(b" at line");
    out.put_number(refused.line);
    put_editor_line(out, refused.line);
    if refused.fault != Fault::Overlong {
        put_shown(out, refused.fault, reader::find_line(text, refused.line));
    }
}

// A script that is refused.
pub fn put_script_refusal(out: &mut Output, refused: Refusal, text: &[u8])
    requires { HasRoom 402 out.old }
    ensures { Wrote 402 out.old out.new (script_refusal (number refused.fault) refused.line text.now) }
{
    put_refusal(out, refused, text);
    out.put_text(hint(
        refused.fault,
        ends_in_cr(text, refused.line),
        is_unended(text, refused.line),
    ));
}

// A last line that is refused, as a line of the whole input.
pub fn put_turns_refusal(out: &mut Output, refused: Refusal, input: &[u8])
    requires { HasRoom 402 out.old }
    ensures { Wrote 402 out.old out.new (turns_refusal (number refused.fault) refused.line input.now) }
{
    put_refusal(out, refused, input);
    out.put_text(turns_hint(
        ends_in_cr(input, refused.line),
        is_unended(input, refused.line),
    ));
}
