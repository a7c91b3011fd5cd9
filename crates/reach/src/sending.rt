// The message that a waiting sender put: document 02's L1 counts it as the sender's, as long as the channel holds it.
ghost use Rattle.std.specs.Prelude.{◌≤◌, ◌<◌, length};
ghost use Rattle.rules.specs.State.{channel_at};
ghost use Rattle.table.specs.StateTable.{InTable, Sees};
ghost use Rattle.reach.specs.Reported.{message_for, SeesInFlight};

use rules::{Form, Value};

// The message of channel c, if its number is the one that a sender whose word is d waits for.
fn message_for(s: &[u16], c: u16, d: u16) -> Value
    requires { (8192 ≤ length s.now) × (c < 16) }
    ensures in_table { InTable result }
    ensures sees { Sees s.now (λ S. InTable (channel_at S c).message) (λ S. message_for S c d) result }
{
    if table::message_number(s, c) as usize + 1 == d as usize {
        return table::message(s, c);
    }
    Value::Absent
}

// The message that thread t put, if it waits as its sender and the channel still holds it.
pub fn in_flight(p: &[u16], s: &[u16], t: usize) -> Value
    requires { (8192 ≤ length p.now) × (8192 ≤ length s.now) × (t < 16) }
    ensures in_table { InTable result }
    ensures sees_in_flight { SeesInFlight p.now s.now t result }
{
    let n = table::frame_count(s, t);
    if n == 0 {
        return Value::Absent;
    }
    let h = table::locate(p, s, t, n);
    let form = Form::from(h.part(p, 0));
    match form {
        Form::Send => {
            let x = table::slot(s, h, h.part(p, 1) as usize % 16);
            match x {
                Value::Absent | Value::Obj(_) => Value::Absent,
                Value::Chan(c) => message_for(s, c, table::sender(s, t)),
            }
        }
        Form::NoForm
        | Form::Kind
        | Form::Thread
        | Form::Method
        | Form::Give
        | Form::Value
        | Form::Field
        | Form::Swap
        | Form::Call
        | Form::New
        | Form::Cast
        | Form::Spawn
        | Form::Recv
        | Form::Copy => Value::Absent,
    }
}
