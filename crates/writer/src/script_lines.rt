// The script of a program table as text. A form is written by its number and its words, whatever they are.
ghost use Rattle.std.specs.Prelude.{ℕ, List, ◌∷◌, ◌++◌, ◌+◌, ◌*◌, ◌≡◌, ◌≤◌, ◌<◌, length};
ghost use Rattle.rules.specs.Text.{bytes, space};
ghost use Rattle.rules.specs.Templates.{decimal, cap_word, print_operand, print_many};
ghost use Rattle.rules.specs.Tables.{operand_of, cap_of};
ghost use Rattle.buffer.specs.Outputs.{HasRoom, Wrote};
ghost use Rattle.buffer.specs.Writing.{number_part};
ghost use Rattle.writer.specs.Lines.{operand_part, items_of, PutsItems, line_text, WritesLine, WritesLines, head_text, WritesScript};

use buffer::Output;
use rules::{Cap, Form};

// ---- Parts

// An operand by its word.
fn put_operand(out: &mut Output, w: u16)
    requires { HasRoom 13 out.old }
    ensures { Wrote 13 out.old out.new (operand_part w) }
{
    let word = if w % 2 == 1 { b" (take" } else { b" (read" };
    out.put_text(word);
    out.put_number((w / 2) as usize);
    out.put_byte(b')');
}

// The items of a list, each one more than what it stands for; 0 is none.
fn put_items<F: Fn(&mut Output, u16)>(out: &mut Output, items: [u16; 4], put: F)
    ghost item: { (ℕ → List ℕ) × ℕ }
    requires room { HasRoom (4 * item.1) out.old }
    requires puts { PutsItems F.Fn put item.0 item.1 }
    ensures { Wrote (4 * item.1) out.old out.new (print_many item.0 (items_of items)) }
{
    for item in items {
        if item != 0 {
            put(out, item - 1);
        }
    }
}

// ---- Forms

fn put_kind(out: &mut Output, fields: u16, blocks: [u16; 4])
    requires { HasRoom 53 out.old }
    ensures { Wrote 53 out.old out.new (bytes "(kind (fields" ++ (number_part fields ++ (bytes ") (does" ++ (print_many decimal (items_of blocks) ++ bytes "))\n")))) }
{
    out.put_text(b"(kind (fields");
    out.put_number(fields as usize);
    out.put_text(b") (does");
    put_items(out, blocks, |out, n| out.put_number(n as usize));
    out.put_text(b"))\n");
}

fn put_new(out: &mut Output, cap: u16, kind: u16, operands: [u16; 4])
    requires { HasRoom 77 out.old }
    ensures { Wrote 77 out.old out.new (bytes "(let (new" ++ ((space ∷ cap_word (cap_of cap)) ++ (number_part kind ++ (print_many (λ i. print_operand (operand_of i)) (items_of operands) ++ bytes "))\n")))) }
{
    out.put_text(b"(let (new");
    out.put_cap(Cap::from(cap));
    out.put_number(kind as usize);
    put_items(out, operands, put_operand);
    out.put_text(b"))\n");
}

// A give, or a let of an operand alone.
fn put_value(out: &mut Output, word: &[u8], w: u16)
    requires { HasRoom 26 out.old × (length word.now ≤ 11) }
    ensures { Wrote 26 out.old out.new (word.now ++ (operand_part w ++ bytes ")\n")) }
{
    out.put_text(word);
    put_operand(out, w);
    out.put_text(b")\n");
}

// A spawn or a recv.
fn put_one(out: &mut Output, word: &[u8], n: u16)
    requires { HasRoom 20 out.old × (length word.now ≤ 11) }
    ensures { Wrote 20 out.old out.new (word.now ++ (number_part n ++ bytes "))\n")) }
{
    out.put_text(word);
    out.put_number(n as usize);
    out.put_text(b"))\n");
}

fn put_field(out: &mut Output, slot: u16, field: u16)
    requires { HasRoom 26 out.old }
    ensures { Wrote 26 out.old out.new (bytes "(let (field" ++ (number_part slot ++ (number_part field ++ bytes "))\n"))) }
{
    out.put_text(b"(let (field");
    out.put_number(slot as usize);
    out.put_number(field as usize);
    out.put_text(b"))\n");
}

// A swap or a call.
fn put_place(out: &mut Output, word: &[u8], slot: u16, n: u16, w: u16)
    requires { HasRoom 39 out.old × (length word.now ≤ 11) }
    ensures { Wrote 39 out.old out.new (word.now ++ (number_part slot ++ (number_part n ++ (operand_part w ++ bytes "))\n")))) }
{
    out.put_text(word);
    out.put_number(slot as usize);
    out.put_number(n as usize);
    put_operand(out, w);
    out.put_text(b"))\n");
}

fn put_cast(out: &mut Output, cap: u16, w: u16)
    requires { HasRoom 33 out.old }
    ensures { Wrote 33 out.old out.new (bytes "(let (cast" ++ ((space ∷ cap_word (cap_of cap)) ++ (operand_part w ++ bytes "))\n"))) }
{
    out.put_text(b"(let (cast");
    out.put_cap(Cap::from(cap));
    put_operand(out, w);
    out.put_text(b"))\n");
}

fn put_send(out: &mut Output, slot: u16, w: u16)
    requires { HasRoom 32 out.old }
    ensures { Wrote 32 out.old out.new (bytes "(let (send" ++ (number_part slot ++ (operand_part w ++ bytes "))\n"))) }
{
    out.put_text(b"(let (send");
    out.put_number(slot as usize);
    put_operand(out, w);
    out.put_text(b"))\n");
}

fn put_copy(out: &mut Output, cap: u16, slot: u16)
    requires { HasRoom 26 out.old }
    ensures { Wrote 26 out.old out.new (bytes "(let (copy" ++ ((space ∷ cap_word (cap_of cap)) ++ (number_part slot ++ bytes "))\n"))) }
{
    out.put_text(b"(let (copy");
    out.put_cap(Cap::from(cap));
    out.put_number(slot as usize);
    out.put_text(b"))\n");
}

// A form and its words; nothing where there is no such form.
fn put_form(out: &mut Output, form: Form, parts: [u16; 6])
    requires { HasRoom 77 out.old }
    ensures { Wrote 77 out.old out.new (line_text form parts) }
{
    let [a, b, c, d, e, f] = parts;
    match form {
        Form::Kind => put_kind(out, a, [b, c, d, e]),
        Form::Thread => out.put_text(b"(thread)\n"),
        Form::Method => out.put_text(b"(method)\n"),
        Form::Give => put_value(out, b"(give", a),
        Form::Value => put_value(out, b"(let", a),
        Form::Field => put_field(out, a, b),
        Form::Swap => put_place(out, b"(let (swap", a, b, c),
        Form::Call => put_place(out, b"(let (call", a, b, c),
        Form::New => put_new(out, a, b, [c, d, e, f]),
        Form::Cast => put_cast(out, a, b),
        Form::Spawn => put_one(out, b"(let (spawn", a),
        Form::Send => put_send(out, a, b),
        Form::Recv => put_one(out, b"(let (recv", a),
        Form::Copy => put_copy(out, a, b),
        Form::NoForm => {}
    }
}

// ---- Lines

// Line n of the text.
fn put_line(out: &mut Output, t: &[u16], n: usize)
    requires { HasRoom 77 out.old × (8192 ≤ length t.now) × (n < 672) }
    ensures { WritesLine t.now n out.old out.new }
{
    let form = Form::from(table::line_word(t, n, 0));
    let a = table::line_word(t, n, 1);
    let b = table::line_word(t, n, 2);
    let c = table::line_word(t, n, 3);
    let d = table::line_word(t, n, 4);
    let e = table::line_word(t, n, 5);
    let f = table::line_word(t, n, 6);
    put_form(out, form, [a, b, c, d, e, f]);
}

// All lines, until the text is longer than it may be.
fn put_lines(out: &mut Output, t: &[u16])
    requires { (16461 ≤ length out.old.buf.now) × (out.old.at ≤ 16461) × (8192 ≤ length t.now) }
    ensures { WritesLines t.now out.old out.new }
{
    let lines = table::line_count(t) % 673;
    for n in 0..lines {
        if 16384 < out.at {
            return;
        }
        put_line(out, t, n);
    }
}

// ---- The script

// The line that names the edition, where the table's word does.
fn put_head(out: &mut Output, edition: u16)
    requires { HasRoom 11 out.old }
    ensures { Wrote 11 out.old out.new (head_text edition) }
{
    if edition == 2 {
        out.put_text(b"(script 2)\n");
    }
}

// The line that names the edition and all lines; the length of the text.
pub fn put_script(text: &mut [u8], t: &[u16]) -> usize
    requires { (16461 ≤ length text.old) × (8192 ≤ length t.now) }
    ensures { WritesScript t.now text.old text.new result }
{
    let mut out = Output::new(text);
    put_head(&mut out, table::edition(t));
    put_lines(&mut out, t);
    out.at
}
