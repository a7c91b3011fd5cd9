// A list of turns, played on the tables.
ghost use Rattle.std.specs.Prelude.{◌≤◌, ◌<◌, length};
ghost use Rattle.run.specs.Played.{StopsAt, LooksUp, Plays, CopyNext, PlaysFrom, PlaysPast};

use super::Stop;
use checks::Halt;
use rules::{Fault, Form};
use table::Here;
use turn::Move;

// What a stretch of turns comes to that none stops: all are played, with the moves; or the line of a turn is a copy, with its place in the list, the
// moves before it and where its thread stands.
#[derive(Clone, Copy)]
pub enum Stretch {
    Through(u16),
    AtCopy(usize, u16, Here),
}

// The stop of the line where a thread stands, with the moves before it.
#[cold]
fn stop_at(s: &[u16], here: Here, fault: Fault, moves: u16) -> Stop
    requires { 8192 ≤ length s.now }
    ensures { StopsAt s.now here fault moves result }
{
    Stop {
        fault,
        thread: here.thread as u16,
        block: table::frame_block(s, here.thread, here.depth),
        line: table::frame_line(s, here.thread, here.depth),
        moves,
    }
}

// Where thread t stands, if it has a frame: as kept, or looked for and kept. (Written out in the loop, which calls no function.)
#[inline(always)]
fn look_up(p: &[u16], s: &[u16], places: &mut [Option<Here>], t: usize) -> Option<Here>
    requires { (8192 ≤ length p.now) × (8192 ≤ length s.now) × (t < 16) × (t < length places.old) }
    ensures { LooksUp p.now s.now places.old t result places.new }
{
    if places[t].is_none() {
        let d = table::frame_count(s, t);
        if d != 0 {
            places[t] = Some(table::locate(p, s, t, d));
        }
    }
    places[t]
}

// Plays the turns from number `from` on, with the moves before them, up to the first copy. The places where threads stand are kept while they go from
// line to line. A copy is left to `play_past`: without it the compiled loop calls no function.
fn play_from(
    p: &[u16],
    s: &mut [u16],
    turns: &[u8],
    from: usize,
    moved: u16,
) -> Result<Stretch, Stop>
    requires { (8192 ≤ length p.now) × (8192 ≤ length s.old) × (length turns.now ≤ 32768) × (moved ≤ from) }
    ensures { PlaysFrom p.now s.old turns.now from moved result s.new }
{
    let mut places: [Option<Here>; 16] = [None; 16];
    let mut moves = moved;
    for i in from..turns.len() {
        let t = turns[i] as usize;
        if t < 16 {
            if let Some(here) = look_up(p, s, &mut places, t) {
                // by its number, since one form alone is asked for
                if here.part(p, 0) == Form::Copy.number() {
                    return Ok(Stretch::AtCopy(i, moves, here));
                }
                match turn::perform(p, s, here) {
                    Ok(Move::Next) => {
                        places[t] = Some(here.next_line());
                        moves += 1;
                    }
                    Ok(Move::Stay) => {
                        moves += 1; // a put moves, and its send goes on later
                    }
                    Ok(Move::Turned) => {
                        places[t] = None;
                        moves += 1;
                    }
                    Err(Halt::Waits) => {}
                    Err(Halt::Stops(fault)) => {
                        return Err(stop_at(s, here, fault, moves));
                    }
                }
            }
        }
    }
    Ok(Stretch::Through(moves))
}

// Takes the turn of number i, at the copy where its thread stands, and plays on from the next.
fn play_past(
    p: &[u16],
    s: &mut [u16],
    turns: &[u8],
    i: usize,
    moves: u16,
    here: Here,
) -> Result<Stretch, Stop>
    requires { (8192 ≤ length p.now) × (8192 ≤ length s.old) × (length turns.now ≤ 32768) × CopyNext p.now turns.now i moves here }
    ensures { PlaysPast p.now s.old turns.now i moves here result s.new }
{
    match turn::perform_copy(p, s, here) {
        Ok(_) => play_from(p, s, turns, i + 1, moves + 1),
        Err(Halt::Waits) => play_from(p, s, turns, i + 1, moves),
        Err(Halt::Stops(fault)) => Err(stop_at(s, here, fault, moves)),
    }
}

// Plays the turns from a fresh start, from copy to copy: the moves, or the stop.
pub fn play(p: &[u16], s: &mut [u16], turns: &[u8]) -> Result<u16, Stop>
    requires { (8192 ≤ length p.now) × (8192 ≤ length s.old) × (length turns.now ≤ 32768) }
    ensures { Plays p.now s.old turns.now result s.new }
{
    let mut stretch = play_from(p, s, turns, 0, 0)?;
    // nothing is counted: each stretch tells whether there is another
    loop {
        match stretch {
            Stretch::Through(moves) => {
                return Ok(moves);
            }
            Stretch::AtCopy(i, moves, here) => {
                stretch = play_past(p, s, turns, i, moves, here)?;
            }
        }
    }
}
