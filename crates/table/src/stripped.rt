// Both tables stripped: every capability that a line names becomes unsafe, and every object.
ghost use Rattle.std.specs.Prelude.{◌≡◌, ◌<◌, ◌≤◌, length};
ghost use Rattle.rules.specs.Mosts.{mosts};
ghost use Rattle.rules.specs.Stripped.{erase};
ghost use Rattle.table.specs.StateTable.{Any, Becomes};
ghost use Rattle.table.specs.StrippedTables.{names_cap, LineStripped, Strips, erased_at};

use super::program::line_word;
use super::state::object_count;
use rules::{Cap, Form};

// The forms whose first part is a capability.
fn names_cap(form: Form) -> bool
    ensures { result ≡ names_cap form }
{
    match form {
        Form::New | Form::Cast | Form::Copy => true,
        Form::NoForm
        | Form::Kind
        | Form::Thread
        | Form::Method
        | Form::Give
        | Form::Value
        | Form::Field
        | Form::Swap
        | Form::Call
        | Form::Spawn
        | Form::Send
        | Form::Recv => false,
    }
}

// Line n with unsafe for its capability; a row past the last line has no form.
fn strip_line(t: &mut [u16], n: usize)
    requires { (8192 ≤ length t.old) × (n < 672) }
    ensures { LineStripped n t.old t.new }
{
    if names_cap(Form::from(line_word(t, n, 0))) {
        t[73 + n * 8] = Cap::Unsafe.rank() as u16;
    }
}

// "once it is read, every K in it is changed to unsafe": of a program table.
pub fn strip_program(t: &mut [u16])
    requires { 8192 ≤ length t.old }
    ensures { Strips t.old t.new }
{
    for n in 0..672 { // as many lines as a table has room for
        strip_line(t, n);
    }
}

// Object o made unsafe; past the last one there is none.
fn erase_object(s: &mut [u16], o: u16)
    requires { (8192 ≤ length s.old) × (o < 256) }
    ensures { Becomes s.old Any (erased_at o) s.new }
{
    if o < object_count(s) {
        s[8 + o as usize * 8] = Cap::Unsafe.rank() as u16;
    }
}

// "the guarded state with every object made unsafe": of a state table.
pub fn erase_state(s: &mut [u16])
    requires { 8192 ≤ length s.old }
    ensures { Becomes s.old (λ S. length S.objects ≤ mosts.objects) erase s.new }
{
    for o in 0..256 { // as many objects as a table has room for
        erase_object(s, o);
    }
}
