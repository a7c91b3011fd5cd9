// Where the last line of the input starts, and how many lines stand before it.
ghost use Rattle.std.specs.Prelude.{◌≡◌, ◌≤◌, length, take, drop};
ghost use Rattle.rules.specs.Text.{lines, join};
ghost use Rattle.rules.specs.Input.{last_line, lines_before};

// "That line is what follows the last LF that is not the input's final byte, or all of the input if there is none": where it starts.
pub fn last_start(s: &[u8]) -> usize
    ensures { (take result s.now ≡ join (lines_before (lines s.now))) × (drop result s.now ≡ last_line (lines s.now)) × (result ≤ length s.now) }
{
    match s[..s.len().saturating_sub(1)]
        .iter()
        .rposition(|b| *b == b'\n')
    {
        Some(i) => i + 1,
        None => 0,
    }
}

// How many lines stand before the last one: the LFs that are not the final byte.
pub fn lines_before(s: &[u8]) -> usize
    ensures { result ≡ length (lines_before (lines s.now)) }
{
    s[..s.len().saturating_sub(1)]
        .iter()
        .filter(|b| **b == b'\n')
        .count()
}
