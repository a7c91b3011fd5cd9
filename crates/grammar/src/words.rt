// Bytes of the text, one by one and eight at a time, and fixed words compared with them.
ghost use Rattle.std.specs.Prelude.{◌≡◌, true, ◌&&◌, ◌||◌, ◌+◌, ◌^◌, ◌≤◌, ◌<◌, ◌++◌, length, take, drop, get_or};
ghost use Rattle.rules.specs.Lists.{Every};
ghost use Rattle.grammar.specs.Words.{Byte, word_of, begins, plain, After};

// Both, and at least one.
pub fn both(a: bool, b: bool) -> bool
    ensures { result ≡ (a && b) }
{
    a && b
}

pub fn either(a: bool, b: bool) -> bool
    ensures { result ≡ (a || b) }
{
    a || b
}

// The byte at a place, or 0 past the end.
pub fn byte(s: &[u8], at: usize) -> u8
    ensures { result ≡ get_or s.now at 0 }
{
    s.get(at).copied().unwrap_or(0)
}

// Eight bytes as one number, low byte first. (The compiler makes one load of it. `u64::from_le_bytes` takes an array, and there is none in the crates
// that read a script.)
fn load(s: &[u8], at: usize) -> u64
    requires { at + 8 ≤ length s.now }
    ensures { (result ≡ word_of (take 8 (drop at s.now))) × Every Byte (take 8 (drop at s.now)) }
{
    u64::from(s[at])
        + u64::from(s[at + 1]) * 256
        + u64::from(s[at + 2]) * 65536
        + u64::from(s[at + 3]) * 16777216
        + u64::from(s[at + 4]) * 4294967296
        + u64::from(s[at + 5]) * 1099511627776
        + u64::from(s[at + 6]) * 281474976710656
        + u64::from(s[at + 7]) * 72057594037927936
}

// The same where fewer than eight are left: the text's last eight, without those before the place.
fn load_last(s: &[u8], at: usize) -> u64
    requires { (8 ≤ length s.now) × (length s.now < at + 8) × (at ≤ 131072) }
    ensures { (result ≡ word_of (take 8 (drop at s.now))) × Every Byte (take 8 (drop at s.now)) }
{
    if s.len() <= at {
        return 0;
    }
    let last = load(s, s.len() - 8);
    last >> ((at + 8 - s.len()) * 8) as u32
}

// The eight bytes at a place, or those that are left.
fn eight(s: &[u8], at: usize) -> u64
    requires { (8 ≤ length s.now) × (at ≤ 131072) }
    ensures { (result ≡ word_of (take 8 (drop at s.now))) × Every Byte (take 8 (drop at s.now)) }
{
    if at + 8 <= s.len() {
        return load(s, at);
    }
    load_last(s, at)
}

// A fixed word as one number, low byte first, and the number just above all words of its length. (Both are computed when the code is compiled.)
fn word(w: &[u8]) -> u64
    requires { length w.now ≤ 7 }
    ensures { (result ≡ word_of w.now) × Every Byte w.now }
{
    let mut x: u64 = 0;
    for i in (0..w.len()).rev() {
        x = x * 256 + u64::from(w[i]);
    }
    x
}

fn span(w: &[u8]) -> u64
    requires { length w.now ≤ 7 }
    ensures { result ≡ 256 ^ length w.now }
{
    1u64 << (w.len() * 8) as u32
}

// Whether the fixed word w stands at a place. (Not by `starts_with`, which takes a seventh more instructions to read a script.)
#[inline(always)]
pub fn begins_at(s: &[u8], at: usize, w: &[u8]) -> bool
    requires { (8 ≤ length s.now) × (at ≤ 131072) × (length w.now ≤ 7) × (plain w.now ≡ true) }
    ensures { result ≡ begins w.now (drop at s.now) }
{
    eight(s, at) % span(w) == word(w)
}

// A text that has room for eight bytes, and whose places are small numbers: what a line is read from.
#[derive(Clone, Copy)]
pub struct Text<'a> {
    pub bytes: &'a [u8],
    ghost fits: { (8 ≤ length bytes.now) × (length bytes.now ≤ 65536) },
}

// The place after the fixed word w, where it stands at a place.
#[inline(always)]
pub fn word_at(text: Text, at: usize, w: &[u8]) -> Option<usize>
    requires { (at ≤ 131072) × (length w.now ≤ 7) × (plain w.now ≡ true) }
    ensures { After w.now text.entry.bytes.now at result }
{
    if begins_at(text.bytes, at, w) {
        Some(at + w.len())
    } else {
        None
    }
}

// The same of two fixed words, one after the other.
#[inline(always)]
pub fn words_at(text: Text, at: usize, v: &[u8], w: &[u8]) -> Option<usize>
    requires { (at ≤ 131000) × (length v.now ≤ 7) × (plain v.now ≡ true) × (length w.now ≤ 7) × (plain w.now ≡ true) }
    ensures { After (v.now ++ w.now) text.entry.bytes.now at result }
{
    let next = word_at(text, at, v)?;
    word_at(text, next, w)
}
