// What came of each turn of a list, counted for each thread.
// A table is lent as a slice, and each contract says `8192 ≤ length` (kept: crate table says why).
#![tactic(auto)]

ghost use Rattle.std.specs.Prelude.{◌≡◌, ◌+◌, ◌≤◌, length, drop};
ghost use Rattle.tally.specs.Fates.{count_at, raise, none_counted};
ghost use Rattle.tally.specs.Counted.{TakesOne, Low, CountsPlayed, Tallies, unplayed_from};

use checks::Halt;

// What comes of a turn: it moves, waits, idles (a finished or unstarted thread's), stops the run, or stands after the stop.
#[derive(Clone, Copy, Debug, PartialEq, Eq)]
pub enum Fate {
    Moved,
    Waited,
    Idled,
    Halted,
    Unplayed,
}

// Five counts for each thread, in the order of the fates, and five for the numbers that no thread can have; and how many turns were played
// before one stopped the run. (Kept in one array: the definitions have one list, and in rows each place would be told by two numbers.)
#[derive(Clone, Copy)]
pub struct Tallied {
    pub counts: [u16; 85],
    pub played: usize,
}

// One more of a fate for thread t.
fn count(counts: &mut [u16], t: usize, fate: Fate)
    requires { (length counts.old ≡ 85) × Low 32768 counts.old }
    ensures { counts.new ≡ raise counts.old (count_at t fate) }
{
    let row = t.min(16); // past the last thread
    let at = row * 5 + fate as usize;
    counts[at] += 1;
}

// Takes the turn of thread t.
pub fn take_turn(p: &[u16], s: &mut [u16], t: usize) -> Fate
    requires { (8192 ≤ length p.now) × (8192 ≤ length s.old) }
    ensures { TakesOne p.now s.old t result s.new }
{
    if 16 <= t {
        return Fate::Idled; // no such thread
    }
    if table::frame_count(s, t) == 0 {
        return Fate::Idled; // unstarted or finished
    }
    match turn::turn(p, s, t) {
        Ok(_) => Fate::Moved,
        Err(Halt::Waits) => Fate::Waited,
        Err(Halt::Stops(_)) => Fate::Halted,
    }
}

// Plays the turns from a fresh start, up to the one that stops the run.
fn count_played(p: &[u16], s: &mut [u16], turns: &[u8], counts: &mut [u16]) -> usize
    requires { (8192 ≤ length p.now) × (8192 ≤ length s.old) × (length turns.now ≤ 32768) × (counts.old ≡ none_counted) }
    ensures { CountsPlayed p.now s.old turns.now result counts.new }
{
    for (i, turn) in turns.iter().enumerate() {
        let t = *turn as usize;
        let fate = take_turn(p, s, t);
        count(counts, t, fate);
        if fate == Fate::Halted {
            return i;
        }
    }
    turns.len()
}

// Counts the turns after number `from`, which are not played.
fn count_unplayed(turns: &[u8], from: usize, counts: &mut [u16])
    requires { (length turns.now ≤ 32768) × (length counts.old ≡ 85) × Low (from + 1) counts.old × (from ≤ length turns.now) }
    ensures { counts.new ≡ unplayed_from counts.old (drop (from + 1) turns.now) }
{
    let rest = &turns[(from + 1).min(turns.len())..];
    for turn in rest {
        count(counts, *turn as usize, Fate::Unplayed);
    }
}

// Plays a program that was read, in a fresh table, and counts what comes of each turn.
pub fn tally(p: &[u16], s: &mut [u16], turns: &[u8]) -> Tallied
    requires { (8192 ≤ length p.now) × (8192 ≤ length s.old) × (length turns.now ≤ 32768) }
    ensures { Tallies p.now s.old turns.now result.played result.counts }
{
    table::start_state(s);
    let mut counts = [0u16; 85];
    let played = count_played(p, s, turns, &mut counts);
    count_unplayed(turns, played, &mut counts);
    Tallied { counts, played }
}
