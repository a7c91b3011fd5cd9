// Each line form: its checks in document 01's order, then its writes, and a holder more or less for each value that gains or loses one. A line that
// waits or stops has written nothing. (The table and the place stay two parameters: the one is lent on, the other is copied.)
ghost use Rattle.std.specs.Prelude.{◌≡◌, [], ◌∷◌, ◌≤◌, ◌<◌, length};
ghost use Rattle.rules.specs.Script.{value, field, swap, call, cast, spawn, send, recv, bind, give};
ghost use Rattle.rules.specs.State.{ready, thread_at};
ghost use Rattle.rules.specs.Tables.{operand_of};
ghost use Rattle.table.specs.StateTable.{InTable};
ghost use Rattle.turn.specs.Performed.{Leaves, LeavesItem, Always, Loaded, Performs, PerformsNew, PerformsSent};

use super::Move;
use checks::{Halt, slot_of};
use rules::{Cap, Fault, Value};
use table::Here;

// ---- Operands

// What an operand does to its slot, once its value v stands elsewhere too: a take makes the slot absent, so that v has moved; a read leaves v there, held
// once more.
fn leave(s: &mut [u16], h: Here, w: u16, v: Value)
    requires { (8192 ≤ length s.old) × InTable v }
    ensures { Leaves h.thread h.depth w v s.old s.new }
{
    if w % 2 == 1 {
        table::clear_slot(s, h, slot_of(w));
        return;
    }
    table::hold(s, v);
}

// The same of an item of a new.
fn leave_item(s: &mut [u16], h: Here, e: u16, v: Value)
    requires { (8192 ≤ length s.old) × InTable v }
    ensures { LeavesItem h.thread h.depth e v s.old s.new }
{
    if e != 0 {
        leave(s, h, e - 1, v);
    }
}

// ---- The forms

pub fn value_line(s: &mut [u16], h: Here, w: u16) -> Result<Move, Halt>
    requires { 8192 ≤ length s.old }
    ensures { Performs Always s.old h (bind (value (operand_of w))) result s.new }
{
    checks::operand_check(s, h, w)?;
    let v = checks::operand(s, h, w);
    table::give_value(s, h, v);
    leave(s, h, w, v);
    Ok(Move::Next)
}

// "field: target slot absent 10; a channel 13; no such field 11; target local to another thread 20; field holds an iso 19."
pub fn field_line(s: &mut [u16], h: Here, i: u16, j: u16) -> Result<Move, Halt>
    requires { 8192 ≤ length s.old }
    ensures { Performs Always s.old h (bind (field i j)) result s.new }
{
    let n = checks::as_object(table::slot(s, h, i as usize % 16))?;
    let v = table::field(s, n, j);
    if v == Value::Absent {
        return Err(Halt::Stops(Fault::NoField));
    }
    let foreign = checks::is_foreign(s, h.thread, n);
    let alias = checks::is_iso_object(s, v);
    checks::permission_check(foreign, alias, false)?;
    table::give_value(s, h, v);
    table::hold(s, v); // in that slot too
    Ok(Move::Next)
}

// "swap: target absent 10; target a channel 13; .. It stores the value and gives the old one."
pub fn swap_line(s: &mut [u16], h: Here, i: u16, j: u16, w: u16) -> Result<Move, Halt>
    requires { (8192 ≤ length s.old) × (i < 256) }
    ensures { Performs Always s.old h (bind (swap i j (operand_of w))) result s.new }
{
    checks::operand_check(s, h, w)?;
    let v = checks::operand(s, h, w);
    let n = checks::as_object(checks::seen(s, h, i, w))?;
    checks::swap_into(s, h.thread, n, j, v)?;
    let old = table::field(s, n, j);
    table::give_value(s, h, old); // it moves from the field to the slot
    table::store_field(s, n, j % 4, v);
    leave(s, h, w, v);
    Ok(Move::Next)
}

// "call: target absent 10; a channel 13; no such method 12; target local to another thread 20; frames used up 16. The new frame holds target and
// value; the caller's slot keeps the target."
pub fn call_line(p: &[u16], s: &mut [u16], h: Here, i: u16, j: u16, w: u16) -> Result<Move, Halt>
    requires { (8192 ≤ length p.now) × (8192 ≤ length s.old) × (i < 256) }
    ensures { Performs (λ P S. Loaded p.now P) s.old h (bind (call i j (operand_of w))) result s.new }
{
    checks::operand_check(s, h, w)?;
    let n = checks::as_object(checks::seen(s, h, i, w))?;
    let Some(b) = checks::method_block(p, s, n, j) else {
        return Err(Halt::Stops(Fault::NoMethod));
    };
    checks::permission_check(checks::is_foreign(s, h.thread, n), false, false)?;
    if 15 <= h.depth {
        return Err(Halt::Stops(Fault::UsedUp));
    }
    let v = checks::operand(s, h, w);
    table::push_frame(s, h, b, Value::Obj(n), v);
    table::hold(s, Value::Obj(n)); // the caller's slot keeps the target
    leave(s, h, w, v);
    Ok(Move::Turned)
}

pub fn new_line(s: &mut [u16], h: Here, k: Cap, kind: u16, items: [u16; 4]) -> Result<Move, Halt>
    requires { 8192 ≤ length s.old }
    ensures { PerformsNew s.old h k kind items result s.new }
{
    checks::items_check(s, h, items)?;
    let values = checks::item_values(s, h, items);
    checks::hold_check(s, h.thread, k, values)?;
    let n = table::object_count(s) % 256;
    let [a, b, c, d] = values;
    table::add_object(s, h.thread as u16, n, k.rank() as u16, kind, a, b, c, d);
    table::give_value(s, h, Value::Obj(n));
    table::hold(s, Value::Obj(n)); // in that slot
    for i in 0..4 {
        leave_item(s, h, items[i], values[i]);
    }
    Ok(Move::Next)
}

pub fn cast_line(s: &mut [u16], h: Here, k: Cap, w: u16) -> Result<Move, Halt>
    requires { 8192 ≤ length s.old }
    ensures { Performs Always s.old h (bind (cast k (operand_of w))) result s.new }
{
    checks::cast_check(s, h, k, w)?;
    let v = checks::operand(s, h, w);
    table::give_value(s, h, v);
    leave(s, h, w, v);
    Ok(Move::Next)
}

// "A spawn makes the next thread, with an empty channel of the same number."
pub fn spawn_line(s: &mut [u16], h: Here, b: u16) -> Result<Move, Halt>
    requires { 8192 ≤ length s.old }
    ensures { Performs Always s.old h (bind (spawn b)) result s.new }
{
    checks::spawn_check(s)?;
    let n = table::thread_count(s) % 16;
    table::start_thread(s, n, b);
    table::give_value(s, h, Value::Chan(n));
    Ok(Move::Next)
}

// A send by a thread that is ready: "target absent 10; an object 13; ..".
fn put_line(s: &mut [u16], h: Here, i: u16, w: u16) -> Result<Move, Halt>
    requires { (8192 ≤ length s.old) × (i < 256) }
    ensures { Performs (λ P S. (thread_at S h.thread).sender ≡ ready) s.old h (bind (send i (operand_of w))) result s.new }
{
    checks::operand_check(s, h, w)?;
    let v = checks::operand(s, h, w);
    let c = checks::as_channel(checks::seen(s, h, i, w))?;
    checks::put_into(s, c, v)?;
    table::put_message(s, h, c, v);
    leave(s, h, w, v);
    Ok(Move::Stay)
}

// A send by a thread that waits as a sender, whose word is d.
fn sent_line(s: &mut [u16], h: Here, i: u16, d: u16) -> Result<Move, Halt>
    requires { (8192 ≤ length s.old) × (1 ≤ d) }
    ensures { PerformsSent s.old h i d result s.new }
{
    checks::sent_check(s, h, i, d)?;
    let x = table::slot(s, h, i as usize % 16);
    table::give_value(s, h, x); // the channel
    Ok(Move::Next)
}

pub fn send_line(s: &mut [u16], h: Here, i: u16, w: u16) -> Result<Move, Halt>
    requires { (8192 ≤ length s.old) × (i < 256) }
    ensures { Performs Always s.old h (bind (send i (operand_of w))) result s.new }
{
    let d = table::sender(s, h.thread);
    if d == 0 {
        return put_line(s, h, i, w);
    }
    sent_line(s, h, i, d)
}

// "recv: target absent 10; an object 13; empty: waits. Otherwise it gives the value and empties the channel."
pub fn recv_line(s: &mut [u16], h: Here, i: u16) -> Result<Move, Halt>
    requires { 8192 ≤ length s.old }
    ensures { Performs Always s.old h (bind (recv i)) result s.new }
{
    let c = checks::as_channel(table::slot(s, h, i as usize % 16))?;
    let v = table::message(s, c);
    if v == Value::Absent {
        return Err(Halt::Waits);
    }
    table::give_value(s, h, v); // it moves from the channel to the slot
    table::empty_channel(s, c);
    Ok(Move::Next)
}

// "A give ends the frame and fills the caller's slot. From the outermost frame it finishes the thread."
pub fn give_line(s: &mut [u16], h: Here, w: u16) -> Result<Move, Halt>
    requires { 8192 ≤ length s.old }
    ensures { Performs Always s.old h (give (operand_of w)) result s.new }
{
    checks::operand_check(s, h, w)?;
    if h.depth == 0 {
        table::drop_frame(s, h);
        return Ok(Move::Turned);
    }
    let v = checks::operand(s, h, w);
    table::return_value(s, h, v);
    table::hold(s, v);
    table::drop_frame(s, h);
    Ok(Move::Turned)
}
