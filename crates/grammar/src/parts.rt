// The parts of a form: numbers, operands, capabilities, and lists of numbers and of operands.
#![tactic(auto, unfolding(crate::specs::Words::plain, rules::specs::Lists::all))]

ghost use Rattle.std.specs.Prelude.{◌≡◌, true, false, cond, [], ◌+◌, ◌≤◌, ltb, length, drop, IfSome};
ghost use Rattle.rules.specs.Templates.{took, unfit, number, operand, capability};
ghost use Rattle.rules.specs.Mosts as Most;
ghost use Rattle.rules.specs.Tables.{operand_of, cap_of};
ghost use Rattle.grammar.specs.Parts.{Digit, told};
ghost use Rattle.grammar.specs.Items.{Listed, Adds, ItemsBy, NumbersAt, OperandsAt};

use super::words::{Text, begins_at, both, byte, either};

// What a part reads at a place: its word, and the place after it.
#[derive(Clone, Copy)]
pub struct Part {
    pub word: u16,
    pub end: usize,
}

// What a list reads at a place: how many items it has (at most four are counted), the words of its first four items (each one more, 0 after the
// last; a to d, since the crates that read a script have no arrays), whether a most is exceeded, one more than its highest slot, whether it takes
// slot 0, and the place after it.
#[derive(Clone, Copy)]
pub struct Items {
    pub n: u16,
    pub a: u16,
    pub b: u16,
    pub c: u16,
    pub d: u16,
    pub over: bool,
    pub need: u16,
    pub own: bool,
    pub end: usize,
}

// The value of a digit.
fn digit(b: u8) -> Option<u16>
    ensures { Digit b result }
{
    if b.is_ascii_digit() {
        Some(u16::from(b - b'0'))
    } else {
        None
    }
}

// "A number is decimal, one to three digits, no needless leading zero".
pub fn number_at(s: &[u8], at: usize) -> Option<Part>
    requires { at ≤ 131072 }
    ensures s_value { number (drop at s.now) ≡ told (λ n. n) s.now result }
    ensures word_bound { IfSome result (λ p. (p.word ≤ 999) × (at ≤ p.end) × (p.end ≤ at + 3)) }
{
    let a = digit(byte(s, at))?;
    let Some(b) = digit(byte(s, at + 1)) else {
        return Some(Part {
            word: a,
            end: at + 1,
        });
    };
    if a == 0 {
        return None;
    }
    let Some(c) = digit(byte(s, at + 2)) else {
        return Some(Part {
            word: a * 10 + b,
            end: at + 2,
        });
    };
    if digit(byte(s, at + 3)).is_some() {
        return None;
    }
    Some(Part {
        word: a * 100 + b * 10 + c,
        end: at + 3,
    })
}

// "Operand W: (read S) or (take S)": twice its slot, and one more where it takes. Of a slot with any number of digits.
#[inline(never)]
fn long_operand_at(text: Text, at: usize) -> Option<Part>
    requires { at ≤ 131000 }
    ensures s_value { operand (drop at text.entry.bytes.now) ≡ told operand_of text.entry.bytes.now result }
    ensures word_bound { IfSome result (λ p. (p.word ≤ 1999) × (at ≤ p.end) × (p.end ≤ at + 10)) }
{
    let reads = begins_at(text.bytes, at, b"(read ");
    let takes = begins_at(text.bytes, at, b"(take "); // and any slot
    let slot = number_at(text.bytes, at + 6)?;
    let closed = begins_at(text.bytes, slot.end, b")");
    if !both(either(reads, takes), closed) {
        return None;
    }
    Some(Part {
        word: slot.word * 2 + u16::from(takes),
        end: slot.end + 1,
    })
}

// The same, at once where the slot has one digit: a digit and a closing bracket stand at their places.
#[inline(always)]
pub fn operand_at(text: Text, at: usize) -> Option<Part>
    requires { at ≤ 131000 }
    ensures s_value { operand (drop at text.entry.bytes.now) ≡ told operand_of text.entry.bytes.now result }
    ensures word_bound { IfSome result (λ p. (p.word ≤ 1999) × (at ≤ p.end) × (p.end ≤ at + 10)) }
{
    let Some(slot) = digit(byte(text.bytes, at + 6)) else {
        return long_operand_at(text, at);
    };
    let closed = byte(text.bytes, at + 7) == b')';
    if !closed {
        return long_operand_at(text, at);
    }
    let reads = begins_at(text.bytes, at, b"(read ");
    let takes = begins_at(text.bytes, at, b"(take "); // and one digit
    if !either(reads, takes) {
        return None;
    }
    Some(Part {
        word: slot * 2 + u16::from(takes),
        end: at + 8,
    })
}

// "K is one of the words imm, iso, local, unsafe."
#[inline(always)]
pub fn cap_at(text: Text, at: usize) -> Option<Part>
    requires { at ≤ 131000 }
    ensures s_value { capability (drop at text.entry.bytes.now) ≡ told cap_of text.entry.bytes.now result }
    ensures word_bound { IfSome result (λ p. (p.word ≤ 3) × (at ≤ p.end) × (p.end ≤ at + 6)) }
{
    if begins_at(text.bytes, at, b"imm") {
        return Some(Part {
            word: 0,
            end: at + 3,
        });
    }
    if begins_at(text.bytes, at, b"iso") {
        return Some(Part {
            word: 1,
            end: at + 3,
        });
    }
    if begins_at(text.bytes, at, b"local") {
        return Some(Part {
            word: 2,
            end: at + 5,
        });
    }
    if begins_at(text.bytes, at, b"unsafe") {
        return Some(Part {
            word: 3,
            end: at + 6,
        });
    }
    None
}

// Whether a number exceeds 255.
pub fn over(n: u16) -> bool
    ensures { result ≡ ltb Most.number n }
{
    255 < n
}

fn no_items(at: usize) -> Items
    ensures listed { Listed result [] [] }
    ensures ends { (result.need ≡ 0) × (result.own ≡ false) × (result.end ≡ at) }
{
    Items {
        n: 0,
        a: 0,
        b: 0,
        c: 0,
        d: 0,
        over: false,
        need: 0,
        own: false,
        end: at,
    }
}

// One item more: its word in the table and its number. Past the fourth only the excess is noted.
fn with_item(l: Items, item: u16, number: u16) -> Items
    ensures adds { Adds l item number result }
    ensures ends { (result.need ≡ l.need) × (result.own ≡ l.own) × (result.end ≡ l.end) }
{
    let mut next = l;
    next.over = either(l.over, over(number));
    match l.n {
        0 => {
            next.n = 1;
            next.a = item;
        }
        1 => {
            next.n = 2;
            next.b = item;
        }
        2 => {
            next.n = 3;
            next.c = item;
        }
        3 => {
            next.n = 4;
            next.d = item;
        }
        _ => {
            next.over = true;
        }
    }
    next
}

// Items one after the other, each after a space: `part` reads one at a place, and its number is its word by `per`.
#[inline(always)]
fn items_at<F: Fn(usize) -> Option<Part>>(text: Text, at: usize, part: F, per: u16) -> Option<Items>
    requires short { (at ≤ 65800) × (1 ≤ per) }
    requires callable { (p : _) → p ≤ 65536 → F.pre part p }
    requires bounded { (p : _) (r : _) → p ≤ 65536 → F.post part p r → IfSome r (λ x. (x.word ≤ 1999) × (p ≤ x.end) × (x.end ≤ p + 10)) }
    ensures items { ItemsBy (F.post part) per text.entry.bytes.now at result }
    ensures at_le_end { IfSome result (λ l. (at ≤ l.end) × (l.end ≤ 65800)) }
{
    let mut l = no_items(at);
    // no index is counted: each item tells where the next may stand
    while byte(text.bytes, l.end) == b' ' {
        let w = part(l.end + 1)?;
        let number = w.word / per;
        let mut next = with_item(l, w.word + 1, number);
        next.end = w.end;
        next.need = l.need.max(number + 1);
        next.own = either(l.own, w.word == 1);
        l = next;
    }
    Some(l)
}

// " B ..": the method blocks of a kind.
pub fn numbers_at(text: Text, at: usize) -> Option<Items>
    requires { at ≤ 65800 }
    ensures numbers_at { NumbersAt text.entry.bytes.now at result }
    ensures at_le_end { IfSome result (λ l. (at ≤ l.end) × (l.end ≤ 65800)) }
{
    items_at(text, at, |place| number_at(text.bytes, place), 1)
}

// " W ..": the operands of a new.
pub fn operands_at(text: Text, at: usize) -> Option<Items>
    requires { at ≤ 65800 }
    ensures operands_at { OperandsAt text.entry.bytes.now at result }
    ensures at_le_end { IfSome result (λ l. (at ≤ l.end) × (l.end ≤ 65800)) }
{
    items_at(text, at, |place| operand_at(text, place), 2)
}
