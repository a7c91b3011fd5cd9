// The turns line, read into a list of bytes.
ghost use Rattle.std.specs.Prelude.{◌≡◌, ◌≤◌, length, drop, IfOk, IfSome};
ghost use Rattle.rules.specs.Input.{turns_of};
ghost use Rattle.replay.specs.Told.{turns_told, NumbersStored};

use rules::Fault;

// The numbers of a line: how many there are, whether one is over 255 (which is told only where the line fits to its end), and the place after them.
#[derive(Clone, Copy)]
pub struct Numbers {
    pub count: usize,
    pub over: bool,
    pub end: usize,
}

// " T ..": each number that is read goes to the list. (Each takes two bytes of the input at least, so that the list has room.)
fn store_numbers(s: &[u8], at: usize, turns: &mut [u8]) -> Option<Numbers>
    requires { (length s.now ≤ 65536) × (at ≤ 65600) × (32768 ≤ length turns.old) }
    ensures numbers_stored { NumbersStored s.now at result turns.new }
    ensures count_bound { IfSome result (λ r. (r.count ≤ 32768) × (r.end ≤ 65600)) }
{
    let mut l = Numbers {
        count: 0,
        over: false,
        end: at,
    };
    // no index is counted: each number tells where the next may stand
    while grammar::byte(s, l.end) == b' ' {
        let w = grammar::number_at(s, l.end + 1)?;
        turns[l.count] = (w.word % 256) as u8;
        l = Numbers {
            count: l.count + 1,
            over: l.over || grammar::over(w.word),
            end: w.end,
        };
    }
    Some(l)
}

// The turns line, from a place to the input's end: how many turns stand at the front of the list, or a fault of it. "A fault in it .. : 3, .. then 4
// for a number over 255." (None has fewer than eight bytes.) After a fault the list holds what was stored of it.
pub fn turns_line(s: &[u8], at: usize, turns: &mut [u8]) -> Result<usize, Fault>
    requires { (length s.now ≤ 65536) × (at ≤ length s.now) × (32768 ≤ length turns.old) }
    ensures s_value { turns_of (drop at s.now) ≡ turns_told result turns.new }
    ensures result_bound { IfOk result (λ n. n ≤ 32768) }
{
    if s.len() < 8 || !grammar::begins_at(s, at, b"(turns") {
        return Err(Fault::Malformed);
    }
    let Some(list) = store_numbers(s, at + 6, turns) else {
        return Err(Fault::Malformed);
    };
    if !grammar::begins_at(s, list.end, b")\n") || list.end + 2 < s.len() {
        return Err(Fault::Malformed); // before a number over 255
    }
    if list.over {
        return Err(Fault::OverCount);
    }
    Ok(list.count)
}
