// Both runs of a script that was read: what came of the turns, how the stripped run ends, and whether the guards changed the table.
ghost use Rattle.std.specs.Prelude.{◌≤◌, length};
ghost use Rattle.sheet.specs.Examined.{ComparesRuns, Examines, StrippedAnswers};

use rules::Refusal;
use run::Outcome;

// What is found: five counts for each thread, the turns played before a stop, the stripped run's answer, and whether the tables are the same.
#[derive(Clone, Copy)]
pub struct Examined {
    pub counts: [u16; 85],
    pub played: usize,
    pub stripped: Result<Outcome, Refusal>,
    pub same: bool,
}

// What the stripped run answers.
fn stripped_answer(text: &[u8], turns: &[u8]) -> Result<Outcome, Refusal>
    ensures { StrippedAnswers text.now turns.now result }
{
    let mut p = [0u16; 8192];
    let mut s = [0u16; 8192];
    stripping::make_stripped(text, turns, &mut p, &mut s)
}

// Whether the stripped run leaves the guarded one's table on the turns played, capabilities aside. That table's capabilities are lost.
fn is_same(text: &[u8], played: &[u8], s: &mut [u16]) -> bool
    requires { 8192 ≤ length s.old }
    ensures { ComparesRuns text.now played.now s.old result }
{
    let mut q = [0u16; 8192];
    let mut t = [0u16; 8192];
    let _ = stripping::make_stripped(text, played, &mut q, &mut t);
    table::erase_state(s);
    table::same_table(s, &t)
}

// Of a run that was made, in its two tables.
pub fn examine(text: &[u8], turns: &[u8], p: &[u16], s: &mut [u16]) -> Examined
    requires { (8192 ≤ length p.now) × (8192 ≤ length s.old) × (length turns.now ≤ 32768) }
    ensures { Examines text.now turns.now p.now s.old result }
{
    let mut fresh = [0u16; 8192];
    let tallied = tally::tally(p, &mut fresh, turns);
    let counts = tallied.counts;
    Examined {
        counts,
        played: tallied.played,
        stripped: stripped_answer(text, turns),
        same: is_same(text, &turns[..tallied.played], s),
    }
}
