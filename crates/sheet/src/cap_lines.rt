// The capabilities that the lines of a program name, from its table.
ghost use Rattle.std.specs.Prelude.{Some, ◌≤◌, ◌<◌, length};
ghost use Rattle.buffer.specs.Outputs.{HasRoom};
ghost use Rattle.sheet.specs.Ticks.{cap_made, cap_named};
ghost use Rattle.sheet.specs.CapLines.{cap_number, CountsMaking, TellsLine, WritesName, WritesNaming};

use buffer::Output;
use rules::{Cap, Form};

// The capability that line n names. (Two functions for two lists of forms, as the definitions have them: one over a closure would hold both lists.)
fn cap_named(p: &[u16], n: usize) -> Option<Cap>
    requires { (8192 ≤ length p.now) × (n < 672) }
    ensures { TellsLine p.now n cap_named (cap_number result) }
{
    match Form::from(table::line_word(p, n, 0)) {
        Form::New | Form::Cast | Form::Copy => Some(Cap::from(table::line_word(p, n, 1))),
        Form::NoForm
        | Form::Kind
        | Form::Thread
        | Form::Method
        | Form::Give
        | Form::Value
        | Form::Field
        | Form::Swap
        | Form::Call
        | Form::Spawn
        | Form::Send
        | Form::Recv => None,
    }
}

// That of the records which line n makes.
fn cap_made(p: &[u16], n: usize) -> Option<Cap>
    requires { (8192 ≤ length p.now) × (n < 672) }
    ensures { TellsLine p.now n cap_made (cap_number result) }
{
    match Form::from(table::line_word(p, n, 0)) {
        Form::New | Form::Copy => Some(Cap::from(table::line_word(p, n, 1))),
        Form::NoForm
        | Form::Kind
        | Form::Thread
        | Form::Method
        | Form::Give
        | Form::Value
        | Form::Field
        | Form::Swap
        | Form::Call
        | Form::Cast
        | Form::Spawn
        | Form::Send
        | Form::Recv => None,
    }
}

// How many lines make records of a capability.
pub fn count_making(p: &[u16], cap: Cap) -> usize
    requires { 8192 ≤ length p.now }
    ensures { CountsMaking p.now (cap_number (Some cap)) result }
{
    let mut count = 0;
    for n in 0..table::line_count(p).min(672) {
        if cap_made(p, n) == Some(cap) {
            count += 1;
        }
    }
    count
}

// The number of line n where it names unsafe; nothing of any other.
fn put_name(out: &mut Output, p: &[u16], first: usize, n: usize)
    requires { HasRoom 6 out.old × (8192 ≤ length p.now) × (first ≤ 1) × (n < 672) }
    ensures { WritesName p.now first n out.old out.new }
{
    if cap_named(p, n) == Some(Cap::Unsafe) {
        out.put_number(first + n);
    }
}

// The numbers of the lines that name unsafe, each after a space; the first line has the number `first`.
pub fn put_naming(out: &mut Output, p: &[u16], first: usize)
    requires { HasRoom 4032 out.old × (8192 ≤ length p.now) × (first ≤ 1) }
    ensures { WritesNaming p.now first out.old out.new }
{
    for n in 0..table::line_count(p).min(672) {
        put_name(out, p, first, n);
    }
}
