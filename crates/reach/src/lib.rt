// The reach report: a run, and then every object that a thread reaches, in rising order.
// A table is lent as a slice, and each contract says `8192 ≤ length` (kept: crate table says why).
#![tactic(auto)]

mod sending;
mod walking;

ghost use Rattle.reach.specs.Reported.{ReportsState, Reaches};

use rules::{Fault, Refusal};
use walk::Met;
use walking::{list_met, walk_roots};

// Runs the turns, then lists the objects that thread t reaches, in rising order: how many there are. A refusal by 1 to 9 changes no word; 17
// leaves the list as it was.
pub fn reach(
    text: &[u8],
    turns: &[u8],
    program: &mut [u16],
    state: &mut [u16],
    t: usize,
    list: &mut [u16],
) -> Result<usize, Refusal>
    ensures { Reaches text.now turns.now program.old state.old t list.old result program.new state.new list.new }
{
    run::run_into(text, turns, list.len() < 256, program, state)?;
    report_on(program, state, t, list)
}

// The report on two tables that hold a run. What is too short to be one of them, or to list all objects, is refused with 9.
pub fn report_on(p: &[u16], s: &[u16], t: usize, list: &mut [u16]) -> Result<usize, Refusal>
    ensures { ReportsState p.now s.now t list.old result list.new }
{
    if p.len() < 8192 || s.len() < 8192 || list.len() < 256 {
        return Err(Fault::ShortTable.at(0));
    }
    if table::thread_count(s) as usize <= t {
        return Err(Fault::NoThread.at(0));
    }
    let mut places = [0u16; 256];
    let mut order = [0u16; 256];
    let mut met = Met::new(&mut places, &mut order);
    walk_roots(&mut met, p, s, t % 16);
    let places = met.places;
    Ok(list_met(places, list))
}
