// Why a call is turned away or a turn is stopped: document 01's "Turning away", and document 02's. (The numbers of the definitions stand in
// specs/Numbers; the contract of `number` holds the two together.)
ghost use Rattle.std.specs.Prelude.{◌≡◌};
ghost use Rattle.rules.specs.Numbers.{number, fault_on};

use super::Ground;

#[derive(Clone, Copy, Debug, PartialEq, Eq)]
pub enum Fault {
    Overlong = 1, // text or turns too long
    StrayByte = 2, // a byte outside the list
    Malformed = 3, // not a form, out of its place, or without its LF
    OverCount = 4, // a most, or 255, exceeded
    Unbound = 5, // slot not yet filled in its block
    SelfTaken = 6, // take of slot 0 in a method
    Unfinished = 7, // no block, or the last one open
    Dangling = 8, // no such kind or block, wrong sort of block, operands unlike the kind's fields, block 0 not a thread
    ShortTable = 9, // a lent table or list under its length
    Absent = 10, // a slot that holds nothing
    NoField = 11, // no such field
    NoMethod = 12, // no such method
    WrongThing = 13, // a channel where an object is wanted, or an object where a channel is
    Permission = 14, // the capabilities do not allow it, on another ground than 19 or 20
    Cast = 15, // capability not K
    UsedUp = 16, // objects, threads or frames used up
    NoThread = 17, // report on a thread never started
    NoScript = 18, // document 02, L2: no accepted text reads to this table
    Alias = 19, // document 02, L5: a second reference to an iso
    Foreign = 20, // something local to another thread
    NoObject = 21, // document 02, L7: holders of an object never made
}

impl Fault {
    pub fn number(self) -> u16
        ensures { result ≡ number self }
    {
        self as u16
    }

    // The refusal that tells a line.
    pub fn at(self, line: usize) -> Refusal
        ensures fault { result.fault ≡ self }
        ensures line { result.line ≡ line }
    {
        Refusal { fault: self, line }
    }
}

// The stop on a ground.
impl From<Ground> for Fault {
    ghost from_gives = { λ g f. f ≡ fault_on g };

    fn from(g: Ground) -> Fault {
        match g {
            Ground::Foreign => Fault::Foreign,
            Ground::Alias => Fault::Alias,
            Ground::Other => Fault::Permission,
        }
    }
}

// A refusal: why, and the line that it tells.
#[derive(Clone, Copy, Debug, PartialEq, Eq)]
pub struct Refusal {
    pub fault: Fault,
    pub line: usize,
}
