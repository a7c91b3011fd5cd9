// "Line finder: gives line n of a text, without its LF, as the very part of the text lent".
ghost use Rattle.std.specs.Prelude.{◌≡◌, [], ◌+◌, ◌≤◌, length, drop, get_or};
ghost use Rattle.rules.specs.Text.{lines, without_lf, find_line, start_of};

// The first LF from a place on, or the end.
pub fn find_lf(s: &[u8], at: usize) -> usize
    requires { at ≤ length s.now }
    ensures { (result ≡ at + length (without_lf (drop at s.now))) × (result ≤ length s.now) }
{
    match s[at..].iter().position(|b| *b == b'\n') {
        Some(n) => at + n,
        None => s.len(),
    }
}

// Where line n starts, or the end.
pub fn line_start(s: &[u8], n: usize) -> usize
    ensures { (get_or (lines s.now) n [] ≡ get_or (lines (drop result s.now)) 0 []) × (result ≤ length s.now) × (result ≡ start_of n (lines s.now)) }
{
    let mut at: usize = 0;
    for i in 0..n {
        let e = find_lf(s, at);
        if s.len() <= e {
            return s.len();
        }
        at = e + 1;
    }
    at
}

// Line n of a text, without its LF: the very part of the text; past the last line, the empty part at the end.
pub fn find_line(s: &[u8], n: usize) -> &[u8]
    ensures result_value { result.now ≡ find_line n s.now }
    ensures ref_ptr_value { result.ref_ptr ≡ (s.entry.ref_ptr.0, start_of n (lines s.now) + s.entry.ref_ptr.1) }
{
    let at = line_start(s, n);
    let end = find_lf(s, at);
    &s[at..end]
}
