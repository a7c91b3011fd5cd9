// The types that the definitions (specs/) share with the code, who may hold whom, the numbers of faults and of forms, and the words of K.
#![tactic(auto)]

ghost use Rattle.std.specs.Prelude.{◌≡◌, ◌<◌};
ghost use Rattle.rules.specs.Script.{rank};
ghost use Rattle.rules.specs.Templates.{cap_word};
ghost use Rattle.rules.specs.Tables.{cap_of};
ghost use Rattle.rules.specs.Turn.{may_hold};

mod faults;
mod forms;

pub use faults::{Fault, Refusal};
pub use forms::Form;

// "A value is absent, an object number or a channel number."
#[derive(Clone, Copy, Debug, PartialEq, Eq)]
pub enum Value {
    Absent,
    Obj(u16),
    Chan(u16),
}

// "Capabilities are ordered imm < iso < local < unsafe".
#[derive(Clone, Copy, Debug, PartialEq, Eq, PartialOrd, Ord)]
pub enum Cap {
    Imm = 0,
    Iso = 1,
    Local = 2,
    Unsafe = 3,
}

// The grounds of a permission stop (document 02, L5).
#[derive(Clone, Copy, Debug, PartialEq, Eq)]
pub enum Ground {
    Foreign, // something local to another thread
    Alias, // a second reference to an iso
    Other,
}

// What a turn that moves does to fields and messages (document 02, L9): it reads or swaps a field of an object, puts or receives a message, copies the
// objects met from one.
#[derive(Clone, Copy, Debug, PartialEq, Eq)]
pub enum Event {
    Quiet,
    Reads(u16, u16),
    Swaps(u16, u16),
    Puts(u16),
    Receives(u16),
    Copies(u16),
}

// The mosts of a script that two scripts on one box would share (specs/Mosts has their values).
#[derive(Clone, Copy)]
pub struct Mosts {
    pub kinds: usize,
    pub blocks: usize,
    pub lets: usize,
    pub objects: usize,
    pub threads: usize,
}

// "a table of four rows by four columns states this". Row: the holder; column: the value.
pub const HOLDS: [[bool; 4]; 4] = [
    [true, false, false, false],
    [true, true, false, false],
    [true, true, true, false],
    [true, true, true, true],
];

// "A holder may hold a value of its own or a lesser capability".
pub fn may_hold(holder: Cap, value: Cap) -> bool
    ensures { result ≡ may_hold holder value }
{
    let row = holder.rank();
    let column = value.rank();
    HOLDS[row][column]
}

// "K is one of the words".
pub const IMM: [u8; 3] = *b"imm";

pub const ISO: [u8; 3] = *b"iso";

pub const LOCAL: [u8; 5] = *b"local";

pub const UNSAFE: [u8; 6] = *b"unsafe";

impl Cap {
    // The place of a capability in the order.
    pub fn rank(self) -> usize
        ensures value { result ≡ rank self }
        ensures upper_bound { result < 4 }
    {
        self as usize
    }

    // Its word.
    pub fn word(self) -> &'static [u8]
        ensures { result.now ≡ cap_word self }
    {
        match self {
            Cap::Imm => &IMM,
            Cap::Iso => &ISO,
            Cap::Local => &LOCAL,
            Cap::Unsafe => &UNSAFE,
        }
    }
}

// A capability's number in a table read back.
impl From<u16> for Cap {
    ghost from_gives = { λ w c. c ≡ cap_of w };

    fn from(w: u16) -> Cap {
        match w {
            0 => Cap::Imm,
            1 => Cap::Iso,
            2 => Cap::Local,
            _ => Cap::Unsafe,
        }
    }
}
