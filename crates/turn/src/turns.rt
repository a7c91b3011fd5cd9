// The line where a thread stands, by its form; a turn; and whether a turn would wait.
ghost use Rattle.std.specs.Prelude.{◌≡◌, ◌+◌, ◌≤◌, ◌<◌, length, get_or};
ghost use Rattle.rules.specs.declared.forms.Form.TheVariants.{Copy};
ghost use Rattle.rules.specs.Forms.{form_number};
ghost use Rattle.rules.specs.Script.{send, recv, bind};
ghost use Rattle.rules.specs.Tables.{operand_of};
ghost use Rattle.turn.specs.Performed.{PerformsHere, TakesTurn, WouldWait, WaitsHere};

use super::Move;
use checks::Halt;
use rules::{Cap, Form};
use table::Here;

// Performs the line where the thread stands, a copy.
pub fn perform_copy(p: &[u16], s: &mut [u16], h: Here) -> Result<Move, Halt>
    requires { (8192 ≤ length p.now) × (8192 ≤ length s.old) × (get_or p.now (h.row + 0) 0 ≡ form_number Copy) }
    ensures { PerformsHere p.now s.old h result s.new }
{
    let k = Cap::from(h.part(p, 1));
    super::copies::copy_line(s, h, k, h.part(p, 2))
}

// Performs the line where the thread stands. (Written out where it is called: so the loop over the turns calls no function.)
#[inline(always)]
pub fn perform(p: &[u16], s: &mut [u16], h: Here) -> Result<Move, Halt>
    requires { (8192 ≤ length p.now) × (8192 ≤ length s.old) }
    ensures { PerformsHere p.now s.old h result s.new }
{
    let form = Form::from(h.part(p, 0));
    match form {
        Form::Give => super::form_moves::give_line(s, h, h.part(p, 1)),
        Form::Value => super::form_moves::value_line(s, h, h.part(p, 1)),
        Form::Field => super::form_moves::field_line(
            s,
            h,
            h.part(p, 1), // target
            h.part(p, 2), // field
        ),
        Form::Swap => super::form_moves::swap_line(
            s,
            h,
            h.part(p, 1) % 16,
            h.part(p, 2),
            h.part(p, 3),
        ),
        Form::Call => super::form_moves::call_line(
            p,
            s,
            h,
            h.part(p, 1) % 16,
            h.part(p, 2),
            h.part(p, 3),
        ),
        Form::New => super::form_moves::new_line(
            s,
            h,
            Cap::from(h.part(p, 1)),
            h.part(p, 2),
            [h.part(p, 3), h.part(p, 4), h.part(p, 5), h.part(p, 6)],
        ),
        Form::Cast => super::form_moves::cast_line(s, h, Cap::from(h.part(p, 1)), h.part(p, 2)),
        Form::Spawn => super::form_moves::spawn_line(s, h, h.part(p, 1)),
        Form::Send => super::form_moves::send_line(s, h, h.part(p, 1) % 16, h.part(p, 2)),
        Form::Recv => super::form_moves::recv_line(s, h, h.part(p, 1)),
        Form::Copy => perform_copy(p, s, h),
        Form::NoForm | Form::Kind | Form::Thread | Form::Method => Err(Halt::Waits),
    }
}

// The turn of thread t. "A waiting turn, or one for a finished or unstarted thread, changes nothing."
pub fn turn(p: &[u16], s: &mut [u16], t: usize) -> Result<Move, Halt>
    requires { (8192 ≤ length p.now) × (8192 ≤ length s.old) }
    ensures { TakesTurn p.now s.old t result s.new }
{
    if 16 <= t {
        return Err(Halt::Waits); // no such thread
    }
    let d = table::frame_count(s, t);
    if d == 0 {
        return Err(Halt::Waits); // unstarted or finished
    }
    let h = table::locate(p, s, t, d);
    perform(p, s, h)
}

// ---- Whether a turn would wait: only a send and a recv can.

fn send_waits(s: &[u16], h: Here, i: u16, w: u16) -> bool
    requires { (8192 ≤ length s.now) × (i < 256) }
    ensures { WaitsHere s.now h (bind (send i (operand_of w))) result }
{
    let d = table::sender(s, h.thread);
    if d == 0 {
        return checks::put_check(s, h, i, w) == Err(Halt::Waits);
    }
    checks::sent_check(s, h, i, d) == Err(Halt::Waits)
}

fn recv_waits(s: &[u16], h: Here, i: u16) -> bool
    requires { 8192 ≤ length s.now }
    ensures { WaitsHere s.now h (bind (recv i)) result }
{
    checks::recv_check(s, h, i) == Err(Halt::Waits)
}

// Whether thread t's turn would wait, or idle.
pub fn would_wait(p: &[u16], s: &[u16], t: usize) -> bool
    requires { (8192 ≤ length p.now) × (8192 ≤ length s.now) }
    ensures { WouldWait p.now s.now t result }
{
    if 16 <= t {
        return true;
    }
    let d = table::frame_count(s, t);
    if d == 0 {
        return true;
    }
    let h = table::locate(p, s, t, d);
    let form = Form::from(h.part(p, 0));
    let a = h.part(p, 1);
    match form {
        Form::Send => send_waits(s, h, a % 16, h.part(p, 2)),
        Form::Recv => recv_waits(s, h, a),
        Form::NoForm
        | Form::Kind
        | Form::Thread
        | Form::Method
        | Form::Give
        | Form::Value
        | Form::Field
        | Form::Swap
        | Form::Call
        | Form::New
        | Form::Cast
        | Form::Spawn
        | Form::Copy => false,
    }
}
