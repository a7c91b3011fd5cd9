// One line by its form: the form is found by a few bytes, and then tried alone.
#![tactic(auto, unfolding(crate::specs::Words::plain, rules::specs::Lists::all))]

ghost use Rattle.std.specs.Prelude.{◌≡◌, true, false, ◌+◌, ◌≤◌, ◌++◌, length, drop, IfSome};
ghost use Rattle.rules.specs.Templates.{fit, script_t};
ghost use Rattle.rules.specs.Forms.{form_number};
ghost use Rattle.rules.specs.Text.{bytes};
ghost use Rattle.grammar.specs.Words.{plain};
ghost use Rattle.grammar.specs.Decoded.{FormAt, OpenerAt, OperandLineAt, PlaceLineAt, let_form, only_form, LineAt, told_end};

use super::parts::{cap_at, number_at, numbers_at, operand_at, operands_at, over};
use super::words::{Text, byte, either, word_at, words_at};
use rules::Form;

// A decoded line: its form and the parts' words, as in the table (a to f, since the crates that read a script have no arrays); whether the line by
// itself exceeds a most; one more than the highest slot that it names; whether it takes slot 0; and the place after its LF.
#[derive(Clone, Copy)]
pub struct Line {
    pub form: Form,
    pub a: u16,
    pub b: u16,
    pub c: u16,
    pub d: u16,
    pub e: u16,
    pub f: u16,
    pub over: bool,
    pub need: u16,
    pub own: bool,
    pub end: usize,
}

// A line that names no slot and has at most three words.
fn short_line(form: Form, a: u16, b: u16, c: u16, end: usize) -> Line
    ensures words { (result.form ≡ form) × (result.a ≡ a) × (result.b ≡ b) × (result.c ≡ c) × (result.d ≡ 0) × (result.e ≡ 0) × (result.f ≡ 0) }
    ensures rest { (result.over ≡ false) × (result.need ≡ 0) × (result.own ≡ false) × (result.end ≡ end) }
{
    Line {
        form,
        a,
        b,
        c,
        d: 0,
        e: 0,
        f: 0,
        over: false,
        need: 0,
        own: false,
        end,
    }
}

// (kind (fields F) (does B ..))
fn kind_at(text: Text, at: usize) -> Option<Line>
    requires { at ≤ length text.bytes.now }
    ensures { FormAt 0 text.entry.bytes.now at result }
{
    let first = words_at(text, at, b"(kind (", b"fields ")?;
    let fields = number_at(text.bytes, first)?;
    let next = word_at(text, fields.end, b") (does")?;
    let methods = numbers_at(text, next)?;
    let end = word_at(text, methods.end, b"))\n")?;
    let mut l = short_line(Form::Kind, fields.word, methods.a, methods.b, end);
    l.d = methods.c;
    l.e = methods.d;
    l.over = either(4 < fields.word, methods.over);
    Some(l)
}

// (thread) or (method), by the word. (Written out where it is called, as operand_line and place_line are: so the compiler knows the word.)
#[inline(always)]
fn opener_at(text: Text, at: usize, w: &[u8], form: Form) -> Option<Line>
    requires { (at ≤ length text.bytes.now) × (length w.now ≤ 7) × (plain w.now ≡ true) }
    ensures { OpenerAt form w.now text.entry.bytes.now at result }
{
    let first = word_at(text, at, w)?;
    let end = word_at(text, first, b")\n")?;
    Some(short_line(form, 0, 0, 0, end))
}

// (give W) or (let W), by the word
#[inline(always)]
fn operand_line(text: Text, at: usize, w: &[u8], form: Form) -> Option<Line>
    requires { (at ≤ length text.bytes.now) × (length w.now ≤ 7) × (plain w.now ≡ true) }
    ensures { OperandLineAt form w.now text.entry.bytes.now at result }
{
    let first = word_at(text, at, w)?;
    let given = operand_at(text, first)?;
    let end = word_at(text, given.end, b")\n")?;
    let slot = given.word / 2;
    let mut l = short_line(form, given.word, 0, 0, end);
    l.over = over(slot);
    l.need = slot + 1;
    l.own = given.word == 1;
    Some(l)
}

// (let (field S F))
fn field_at(text: Text, at: usize) -> Option<Line>
    requires { at ≤ length text.bytes.now }
    ensures { FormAt 5 text.entry.bytes.now at result }
{
    let first = words_at(text, at, b"(let (", b"field ")?;
    let target = number_at(text.bytes, first)?;
    let next = word_at(text, target.end, b" ")?;
    let field = number_at(text.bytes, next)?;
    let end = word_at(text, field.end, b"))\n")?;
    let mut l = short_line(Form::Field, target.word, field.word, 0, end);
    l.over = either(over(target.word), over(field.word));
    l.need = target.word + 1;
    Some(l)
}

// (let (swap S F W)) or (let (call S M W)), by the word
#[inline(always)]
fn place_line(text: Text, at: usize, w: &[u8], form: Form) -> Option<Line>
    requires { (at ≤ length text.bytes.now) × (length w.now ≤ 7) × (plain w.now ≡ true) }
    ensures { PlaceLineAt form (bytes "(let (" ++ w.now) text.entry.bytes.now at result }
{
    let first = words_at(text, at, b"(let (", w)?;
    let target = number_at(text.bytes, first)?;
    let next = word_at(text, target.end, b" ")?;
    let number = number_at(text.bytes, next)?;
    let last = word_at(text, number.end, b" ")?;
    let given = operand_at(text, last)?;
    let end = word_at(text, given.end, b"))\n")?;
    let slot = given.word / 2;
    let mut l = short_line(form, target.word, number.word, given.word, end);
    l.over = either(either(over(target.word), over(slot)), over(number.word));
    l.need = (target.word + 1).max(slot + 1);
    l.own = given.word == 1;
    Some(l)
}

// (let (new K N W ..))
fn new_at(text: Text, at: usize) -> Option<Line>
    requires { at ≤ length text.bytes.now }
    ensures { FormAt 8 text.entry.bytes.now at result }
{
    let first = words_at(text, at, b"(let (", b"new ")?;
    let cap = cap_at(text, first)?;
    let next = word_at(text, cap.end, b" ")?;
    let kind = number_at(text.bytes, next)?;
    let given = operands_at(text, kind.end)?;
    let end = word_at(text, given.end, b"))\n")?;
    let mut l = short_line(Form::New, cap.word, kind.word, given.a, end);
    l.d = given.b;
    l.e = given.c;
    l.f = given.d;
    l.over = either(given.over, over(kind.word));
    l.need = given.need;
    l.own = given.own;
    Some(l)
}

// (let (cast K W))
fn cast_at(text: Text, at: usize) -> Option<Line>
    requires { at ≤ length text.bytes.now }
    ensures { FormAt 9 text.entry.bytes.now at result }
{
    let first = words_at(text, at, b"(let (", b"cast ")?;
    let cap = cap_at(text, first)?;
    let next = word_at(text, cap.end, b" ")?;
    let given = operand_at(text, next)?;
    let end = word_at(text, given.end, b"))\n")?;
    let slot = given.word / 2;
    let mut l = short_line(Form::Cast, cap.word, given.word, 0, end);
    l.over = over(slot);
    l.need = slot + 1;
    l.own = given.word == 1;
    Some(l)
}

// (let (spawn B))
fn spawn_at(text: Text, at: usize) -> Option<Line>
    requires { at ≤ length text.bytes.now }
    ensures { FormAt 10 text.entry.bytes.now at result }
{
    let first = words_at(text, at, b"(let (", b"spawn ")?;
    let block = number_at(text.bytes, first)?;
    let end = word_at(text, block.end, b"))\n")?;
    let mut l = short_line(Form::Spawn, block.word, 0, 0, end);
    l.over = over(block.word);
    Some(l)
}

// (let (send S W))
fn send_at(text: Text, at: usize) -> Option<Line>
    requires { at ≤ length text.bytes.now }
    ensures { FormAt 11 text.entry.bytes.now at result }
{
    let first = words_at(text, at, b"(let (", b"send ")?;
    let target = number_at(text.bytes, first)?;
    let next = word_at(text, target.end, b" ")?;
    let given = operand_at(text, next)?;
    let end = word_at(text, given.end, b"))\n")?;
    let slot = given.word / 2;
    let mut l = short_line(Form::Send, target.word, given.word, 0, end);
    l.over = either(over(target.word), over(slot));
    l.need = (target.word + 1).max(slot + 1);
    l.own = given.word == 1;
    Some(l)
}

// (let (recv S))
fn recv_at(text: Text, at: usize) -> Option<Line>
    requires { at ≤ length text.bytes.now }
    ensures { FormAt 12 text.entry.bytes.now at result }
{
    let first = words_at(text, at, b"(let (", b"recv ")?;
    let target = number_at(text.bytes, first)?;
    let end = word_at(text, target.end, b"))\n")?;
    let mut l = short_line(Form::Recv, target.word, 0, 0, end);
    l.over = over(target.word);
    l.need = target.word + 1;
    Some(l)
}

// (let (copy K S))
fn copy_at(text: Text, at: usize) -> Option<Line>
    requires { at ≤ length text.bytes.now }
    ensures { FormAt 13 text.entry.bytes.now at result }
{
    let first = words_at(text, at, b"(let (", b"copy ")?;
    let cap = cap_at(text, first)?;
    let next = word_at(text, cap.end, b" ")?;
    let slot = number_at(text.bytes, next)?;
    let end = word_at(text, slot.end, b"))\n")?;
    let mut l = short_line(Form::Copy, cap.word, slot.word, 0, end);
    l.over = over(slot.word);
    l.need = slot.word + 1;
    Some(l)
}

// The only form that a let can fit, by the letters of its word.
#[tactic(auto, unfolding(crate::specs::Decoded::let_form), using(crate::proofs::WordLaws::byte_past, std::proofs::lemmas::Bool::Decides::nat_tests))]
fn let_form(s: &[u8], at: usize) -> Form
    requires { at ≤ 65536 }
    ensures { form_number result ≡ let_form (drop at s.now) }
{
    match byte(s, at + 6) {
        b'f' => Form::Field,
        b'n' => Form::New,
        b'c' => {
            if byte(s, at + 8) == b'l' {
                Form::Call
            } else if byte(s, at + 7) == b'o' {
                Form::Copy
            } else {
                Form::Cast
            }
        }
        b's' => match byte(s, at + 7) {
            b'w' => Form::Swap,
            b'p' => Form::Spawn,
            _ => Form::Send,
        },
        b'r' => {
            if byte(s, at + 8) == b'c' {
                Form::Recv
            } else {
                Form::Value
            }
        }
        _ => Form::Value,
    }
}

// The only form that a line can fit.
#[tactic(auto, unfolding(crate::specs::Decoded::only_form), using(crate::proofs::WordLaws::byte_past, std::proofs::lemmas::Bool::Decides::nat_tests))]
fn form_at(s: &[u8], at: usize) -> Form
    requires { at ≤ 65536 }
    ensures { form_number result ≡ only_form (drop at s.now) }
{
    match byte(s, at + 1) {
        b'k' => Form::Kind,
        b't' => Form::Thread,
        b'm' => Form::Method,
        b'g' => Form::Give,
        _ => let_form(s, at),
    }
}

// The line that starts at a place, if one does. (No line has fewer than nine bytes.)
pub fn line_at(s: &[u8], at: usize) -> Option<Line>
    requires { (length s.now ≤ 65536) × (at ≤ length s.now) }
    ensures { LineAt s.now at result }
{
    if s.len() < 9 {
        return None;
    }
    let text = Text { bytes: s };
    match form_at(s, at) {
        Form::NoForm => None, // no text tells this one
        Form::Kind => kind_at(text, at),
        Form::Thread => opener_at(text, at, b"(thread", Form::Thread),
        Form::Method => opener_at(text, at, b"(method", Form::Method),
        Form::Give => operand_line(text, at, b"(give ", Form::Give),
        Form::Value => operand_line(text, at, b"(let ", Form::Value),
        Form::Field => field_at(text, at),
        Form::Swap => place_line(text, at, b"swap ", Form::Swap),
        Form::Call => place_line(text, at, b"call ", Form::Call),
        Form::New => new_at(text, at),
        Form::Cast => cast_at(text, at),
        Form::Spawn => spawn_at(text, at),
        Form::Send => send_at(text, at),
        Form::Recv => recv_at(text, at),
        Form::Copy => copy_at(text, at),
    }
}

// Where the text's first line is (script 2): the place after it.
pub fn script_end(s: &[u8]) -> Option<usize>
    requires { length s.now ≤ 65536 }
    ensures s_value { fit script_t s.now ≡ told_end s.now result }
    ensures upper_bound { IfSome result (λ e. e ≤ length s.now) }
{
    if s.len() < 11 {
        return None;
    }
    words_at(Text { bytes: s }, 0, b"(script", b" 2)\n")
}
