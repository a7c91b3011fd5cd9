// The turns of a run, played one by one: what each does is told before it is taken, and noted if it moves.
ghost use Rattle.std.specs.Prelude.{◌≤◌, length};
ghost use Rattle.races.specs.Judged.{NothingMarked, Plays, JudgesTurns};

use super::Race;
use super::events::{event, meet};
use super::marks::{Found, Marks, note};
use tally::Fate;

// Takes the turn of thread t, and notes it under its mark: None where it stops the run, or else the turn that it races with, if there is one.
fn play(p: &[u16], s: &mut [u16], t: usize, mark: u16, marks: &mut Marks) -> Option<Option<Found>>
    requires { (8192 ≤ length p.now) × (8192 ≤ length s.old) }
    ensures { Plays p.now s.old t mark marks.old result s.new marks.new }
{
    let e = event(p, s, t);
    let mut order = [0u16; 256];
    let count = meet(s, e, &mut order);
    match tally::take_turn(p, s, t) {
        Fate::Halted => None,
        Fate::Moved => Some(note(marks, e, &order[..count], t % 16, mark)),
        Fate::Waited | Fate::Idled | Fate::Unplayed => Some(None),
    }
}

// Plays the turns up to the first that races with one before it.
pub fn judge_turns(p: &[u16], turns: &[u8], s: &mut [u16], marks: &mut Marks) -> Option<Race>
    requires in_bounds { (8192 ≤ length p.now) × (length turns.now ≤ 1024) × (8192 ≤ length s.old) }
    requires unmarked { NothingMarked marks.old }
    ensures { JudgesTurns p.now turns.now s.old result }
{
    for (k, t) in turns.iter().enumerate() {
        if let Some(found) = play(p, s, *t as usize, (k + 1) as u16, marks)? {
            return Some(Race {
                first: found.turn as usize,
                second: k,
                object: found.object,
                field: found.field,
            });
        }
    }
    None
}
