// What a thread's report walks, and the list of what it met.
ghost use Rattle.std.specs.Prelude.{◌≡◌, ◌++◌, ◌≤◌, ◌<◌, length, drop};
ghost use Rattle.rules.specs.Calls.{list_words};
ghost use Rattle.table.specs.StateTable.{Any, frame_at};
ghost use Rattle.walk.specs.Walking.{Walks};
ghost use Rattle.walk.specs.Walked.{tally_of, SameLists};
ghost use Rattle.reach.specs.Reported.{WalksThread, WalksRoots, met_below};

use super::sending::in_flight;
use walk::Met;

// Walks the slots of frame k of thread t.
fn walk_frame(met: &mut Met, s: &[u16], t: usize, k: usize)
    requires { (8192 ≤ length s.now) × (t < 16) × (k < 16) }
    ensures walks { Walks s.now (tally_of met.old) Any (λ S. (frame_at S t k).slots) (tally_of met.new) }
    ensures same_lists { SameLists met.old met.new }
{
    for i in 0..16 {
        met.walk(s, table::frame_slot(s, t, k, i));
    }
}

// Walks the slots of all frames of thread t.
fn walk_thread(met: &mut Met, s: &[u16], t: usize)
    requires { (8192 ≤ length s.now) × (t < 16) }
    ensures walks_thread { WalksThread s.now (tally_of met.old) t (tally_of met.new) }
    ensures same_lists { SameLists met.old met.new }
{
    for k in 0..table::frame_count(s, t) as usize {
        walk_frame(met, s, t, k % 16);
    }
}

// Walks what thread t's report starts from: its slots, in all frames, and the message that it put.
pub fn walk_roots(met: &mut Met, p: &[u16], s: &[u16], t: usize)
    requires { (8192 ≤ length p.now) × (8192 ≤ length s.now) × (t < 16) }
    ensures walks_roots { WalksRoots p.now s.now (tally_of met.old) t (tally_of met.new) }
    ensures same_lists { SameLists met.old met.new }
{
    walk_thread(met, s, t);
    met.walk(s, in_flight(p, s, t));
}

// Lists the objects met, in rising order, then zeros; answers how many there are.
pub fn list_met(places: &[u16], list: &mut [u16]) -> usize
    requires { (256 ≤ length places.now) × (256 ≤ length list.old) }
    ensures value { result ≡ length (met_below 256 places.now) }
    ensures list_after { list.new ≡ list_words (met_below 256 places.now) ++ drop 256 list.old }
{
    list[..256].fill(0);
    let mut n = 0;
    for i in 0..256 {
        if places[i] != 0 {
            list[n] = i as u16;
            n += 1;
        }
    }
    n
}
