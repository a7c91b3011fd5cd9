// How a run ends that no turn stopped: "finished (all threads finished), stuck (some unfinished, and each of these would wait), else open".
ghost use Rattle.std.specs.Prelude.{◌≤◌, length};
ghost use Rattle.rules.specs.Run.{all_finished};
ghost use Rattle.table.specs.StateTable.{Sees};
ghost use Rattle.run.specs.Played.{AllWait, Ends};

use super::Outcome;

// No thread has frames; a place where no thread is has none.
fn all_finished(s: &[u16]) -> bool
    requires { 8192 ≤ length s.now }
    ensures { Sees s.now (λ S. length S.threads ≤ 16) all_finished result }
{
    (0..16).all(|t| table::frame_count(s, t) == 0)
}

// Each thread would wait; a finished one idles.
fn all_wait(p: &[u16], s: &[u16]) -> bool
    requires { (8192 ≤ length p.now) × (8192 ≤ length s.now) }
    ensures { AllWait p.now s.now result }
{
    (0..table::thread_count(s) as usize).all(|t| turn::would_wait(p, s, t))
}

pub fn end(p: &[u16], s: &[u16], moves: u16) -> Outcome
    requires { (8192 ≤ length p.now) × (8192 ≤ length s.now) }
    ensures { Ends p.now s.now moves result }
{
    if all_finished(s) {
        return Outcome::Finished(moves);
    }
    if all_wait(p, s) {
        return Outcome::Stuck(moves);
    }
    Outcome::Open(moves)
}
