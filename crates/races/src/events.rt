// What a turn does to fields and messages, if it moves, and the objects that it meets.
ghost use Rattle.std.specs.Prelude.{◌/◌, ◌%◌, ◌≤◌, ◌<◌, length};
ghost use Rattle.rules.specs.State.{thread_at, slot_at};
ghost use Rattle.rules.specs.Races.{message_in, put_event};
ghost use Rattle.table.specs.StateTable.{InTable, Sees, frame_at};
ghost use Rattle.races.specs.Events.{ObjectBelow, OnObject, LineTells, TurnTells, Meets};

use rules::{Event, Form, Value};
use table::Here;

// ---- A value, where it is an object

// What is done to the object that a slot or a message holds, if it holds one.
fn on_object<F: FnOnce(u16) -> Event>(v: Value, does: F) -> Event
    requires { F.IsAlwaysCallable does }
    ensures { OnObject (F.post does) v result }
{
    match v {
        Value::Absent | Value::Chan(_) => Event::Quiet,
        Value::Obj(n) => does(n),
    }
}

// ---- Messages

// The message of the channel that a slot holds.
fn message_in(s: &[u16], v: Value) -> Value
    requires { (8192 ≤ length s.now) × InTable v }
    ensures in_table { InTable result }
    ensures sees { Sees s.now (λ S. InTable (message_in S v)) (λ S. message_in S v) result }
{
    match v {
        Value::Absent => Value::Absent,
        Value::Obj(_) => Value::Absent,
        Value::Chan(c) => table::message(s, c),
    }
}

// A send puts its message while its thread is ready.
fn put_event(s: &[u16], h: Here, w: u16) -> Event
    requires { 8192 ≤ length s.now }
    ensures object_below { ObjectBelow 256 result }
    ensures sees { Sees s.now (λ S. InTable (slot_at (frame_at S h.thread h.depth).slots (w / 2 % 16))) (λ S. put_event (thread_at S h.thread).sender (slot_at (frame_at S h.thread h.depth).slots (w / 2 % 16))) result }
{
    if table::sender(s, h.thread) != 0 {
        return Event::Quiet; // it has put it
    }
    on_object(checks::operand(s, h, w), |n| Event::Puts(n))
}

// ---- The turn

// What the line does where the thread stands.
fn line_event(p: &[u16], s: &[u16], h: Here) -> Event
    requires { (8192 ≤ length p.now) × (8192 ≤ length s.now) }
    ensures object_below { ObjectBelow 256 result }
    ensures line_tells { LineTells p.now s.now h result }
{
    let form = Form::from(h.part(p, 0));
    let a = h.part(p, 1);
    let b = h.part(p, 2);
    match form {
        Form::Field => on_object(table::slot(s, h, a as usize % 16), |n| Event::Reads(n, b)),
        Form::Swap => on_object(table::slot(s, h, a as usize % 16), |n| Event::Swaps(n, b)),
        Form::Send => put_event(s, h, b),
        Form::Recv => on_object(
            message_in(s, table::slot(s, h, a as usize % 16)),
            |n| Event::Receives(n),
        ),
        Form::Copy => on_object(table::slot(s, h, b as usize % 16), |n| Event::Copies(n)),
        Form::NoForm
        | Form::Kind
        | Form::Thread
        | Form::Method
        | Form::Give
        | Form::Value
        | Form::Call
        | Form::New
        | Form::Cast
        | Form::Spawn => Event::Quiet,
    }
}

// What the turn of thread t does, if it moves.
pub fn event(p: &[u16], s: &[u16], t: usize) -> Event
    requires { (8192 ≤ length p.now) × (8192 ≤ length s.now) }
    ensures object_below { ObjectBelow 256 result }
    ensures turn_tells { TurnTells p.now s.now t result }
{
    if 16 <= t {
        return Event::Quiet; // no such thread
    }
    let d = table::frame_count(s, t);
    if d == 0 {
        return Event::Quiet; // unstarted or finished
    }
    let h = table::locate(p, s, t, d);
    line_event(p, s, h)
}

// ---- The objects met

// The objects met from the event's message, or from what it copies, put in order at the front of a list: how many. (A list and no `Met`: so the places
// are cleared at an event that meets objects, and at no other turn.)
pub fn meet(s: &[u16], e: Event, order: &mut [u16]) -> usize
    requires { (8192 ≤ length s.now) × ObjectBelow 256 e × (256 ≤ length order.old) }
    ensures few { result ≤ 256 }
    ensures meets { Meets s.now e order.new result }
{
    match e {
        Event::Quiet | Event::Reads(_, _) | Event::Swaps(_, _) => 0,
        Event::Puts(n) | Event::Receives(n) | Event::Copies(n) => {
            let mut places = [0u16; 256];
            walk::walk(s, &mut places, order, 0, Value::Obj(n))
        }
    }
}
