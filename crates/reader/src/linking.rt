// "then 8 in line order": what the lines name is there, and of its sort. (The table is a slice whose length each contract asks: crate table says why.)
ghost use Rattle.std.specs.Prelude.{ℕ, Some, ◌≡◌, cond, ◌≤◌, ◌<◌, eqb, length};
ghost use Rattle.rules.specs.Forms.{form_number};
ghost use Rattle.reader.specs.Linking.{IsSort, MethodDangles, KindDangles, NewDangles, LineDangles, FirstDangling};

use super::counts::Counts;
use rules::Form;

// Whether block b is there, and opened by this form.
fn is_sort(t: &[u16], counts: Counts, b: usize, form: Form) -> bool
    requires { 8192 ≤ length t.now }
    ensures { IsSort t.now counts.blocks b (form_number form) result }
{
    if counts.blocks <= b {
        return false;
    }
    table::block_form(t, b) == form.number()
}

// Whether method i of the kind in line n is no method block.
fn method_dangles(t: &[u16], counts: Counts, n: usize, i: usize) -> bool
    requires { (8192 ≤ length t.now) × (n < 672) × (i < 4) }
    ensures { MethodDangles t.now counts.blocks n i result }
{
    let item = table::kind_method(t, n, i);
    if item == 0 {
        return false;
    }
    !is_sort(t, counts, (item - 1) as usize, Form::Method)
}

// Whether a method of the kind in line n is no method block.
fn kind_dangles(t: &[u16], counts: Counts, n: usize) -> bool
    requires { (8192 ≤ length t.now) × (n < 672) }
    ensures { KindDangles t.now counts.blocks n result }
{
    (0..4).any(|i| method_dangles(t, counts, n, i))
}

// Whether the new in line n names no kind, or has operands unlike the kind's fields.
fn new_dangles(t: &[u16], counts: Counts, n: usize) -> bool
    requires { (8192 ≤ length t.now) × (n < 672) }
    ensures { NewDangles t.now counts.kinds n result }
{
    let kind = table::line_word(t, n, 2) as usize;
    if counts.kinds <= kind {
        return true;
    }
    let operands = (3..7).filter(|k| table::line_word(t, n, *k) != 0).count();
    table::kind_fields(t, kind) as usize != operands
}

// Whether line n dangles. The lines before the first opener are the kinds.
fn line_dangles(t: &[u16], counts: Counts, n: usize) -> bool
    requires { (8192 ≤ length t.now) × (n < 672) }
    ensures { LineDangles t.now counts.kinds counts.blocks n result }
{
    match Form::from(table::line_word(t, n, 0)) {
        Form::Kind => kind_dangles(t, counts, n),
        Form::Method => n == counts.kinds,
        Form::New => new_dangles(t, counts, n),
        Form::Spawn => !is_sort(t, counts, table::line_word(t, n, 1) as usize, Form::Thread),
        Form::NoForm
        | Form::Thread
        | Form::Give
        | Form::Value
        | Form::Field
        | Form::Swap
        | Form::Call
        | Form::Cast
        | Form::Send
        | Form::Recv
        | Form::Copy => false,
    }
}

// The first line that dangles, if one does.
pub fn first_dangling(t: &[u16], counts: Counts) -> Option<usize>
    requires { 8192 ≤ length t.now }
    ensures first_dangling { FirstDangling t.now counts result }
    ensures upper_bound { (n : ℕ) → result ≡ Some n → n < counts.lines }
{
    (0..counts.lines).find(|n| line_dangles(t, counts, *n))
}
