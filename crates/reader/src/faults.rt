// "then line by line 2 to 6": what has been read so far, and a decoded line after it.
ghost use Rattle.std.specs.Prelude.{◌≡◌, ◌≤◌};
ghost use Rattle.rules.specs.Reading.{may_copy};
ghost use Rattle.rules.specs.Tables.{cap_of};
ghost use Rattle.reader.specs.Sofar.{edition_of, InPlace, Full, Faults, GoesOn};

use rules::{Cap, Fault, Form};

// Where the next line stands: outside of blocks, or in a block of a sort.
#[derive(Clone, Copy, Debug, PartialEq, Eq)]
pub enum Place {
    Outside,
    Thread,
    Method,
}

// What has been read so far: whether the first line names the second edition; the counts; where the next line stands; and how many slots the block
// that is open has filled.
#[derive(Clone, Copy)]
pub struct Sofar {
    pub second: bool,
    pub kinds: usize,
    pub blocks: usize,
    pub lets: usize,
    pub place: Place,
    pub filled: u16,
}

// A copy stands in the second edition, and its capability, by its word, is not iso.
fn may_copy(second: bool, cap: u16) -> bool
    ensures { result ≡ may_copy (edition_of second) (cap_of cap) }
{
    second && Cap::from(cap) != Cap::Iso
}

// 3: "Kinds come before all blocks. (thread) or (method) opens a block; (let E) lines follow; (give W) closes it." And a copy where it may not be.
fn in_place(r: Sofar, form: Form, part: u16) -> bool
    ensures { InPlace r form part result }
{
    match form {
        Form::Kind => r.blocks == 0,
        Form::Thread | Form::Method => r.place == Place::Outside,
        Form::Copy => {
            if r.place == Place::Outside {
                return false;
            }
            may_copy(r.second, part)
        }
        Form::NoForm
        | Form::Give
        | Form::Value
        | Form::Field
        | Form::Swap
        | Form::Call
        | Form::New
        | Form::Cast
        | Form::Spawn
        | Form::Send
        | Form::Recv => r.place != Place::Outside,
    }
}

// 4: a most is reached by what was read before the line.
fn is_full(m: rules::Mosts, r: Sofar, form: Form) -> bool
    ensures { Full m r form result }
{
    match form {
        Form::Kind => m.kinds <= r.kinds,
        Form::NoForm | Form::Thread | Form::Method => m.blocks <= r.blocks, // no line has NoForm
        Form::Give => false,
        Form::Value
        | Form::Field
        | Form::Swap
        | Form::Call
        | Form::New
        | Form::Cast
        | Form::Spawn
        | Form::Send
        | Form::Recv
        | Form::Copy => {
            if 16 <= r.filled {
                return true;
            }
            m.lets <= r.lets
        }
    }
}

// The lowest of 3 to 6 that a line which fits its form meets, if it meets one.
pub fn fault(m: rules::Mosts, r: Sofar, l: grammar::Line) -> Result<(), Fault>
    ensures { Faults m r l result }
{
    if !in_place(r, l.form, l.a) {
        return Err(Fault::Malformed);
    }
    if l.over {
        return Err(Fault::OverCount);
    }
    if is_full(m, r, l.form) {
        return Err(Fault::OverCount);
    }
    if r.filled < l.need {
        return Err(Fault::Unbound);
    }
    if r.place == Place::Method {
        if l.own {
            return Err(Fault::SelfTaken);
        }
    }
    Ok(())
}

// What has been read after the line; "Each let fills the next slot."
pub fn after_line(r: Sofar, form: Form) -> Sofar
    requires { (r.kinds ≤ 65535) × (r.blocks ≤ 65535) × (r.lets ≤ 65535) × (r.filled ≤ 255) }
    ensures { GoesOn r form result }
{
    let mut next = r;
    match form {
        Form::Kind => {
            next.kinds = r.kinds + 1;
        }
        Form::Thread => {
            next.blocks = r.blocks + 1;
            next.place = Place::Thread;
            next.filled = 1;
        }
        Form::Method => {
            next.blocks = r.blocks + 1;
            next.place = Place::Method;
            next.filled = 2;
        }
        Form::Give => {
            next.place = Place::Outside;
            next.filled = 0;
        }
        Form::NoForm
        | Form::Value
        | Form::Field
        | Form::Swap
        | Form::Call
        | Form::New
        | Form::Cast
        | Form::Spawn
        | Form::Send
        | Form::Recv
        | Form::Copy => {
            next.lets = r.lets + 1;
            next.filled = r.filled + 1;
        }
    }
    next
}
