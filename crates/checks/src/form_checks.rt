// What ends a line, and the checks that lines share or that say whether a thread would wait, in document 01's order. None of them writes.
ghost use Rattle.std.specs.Prelude.{◌≡◌, ◌||◌, [], ◌∷◌, ◌-◌, ◌/◌, ◌%◌, ◌≤◌, ◌<◌, ltb, length};
ghost use Rattle.rules.specs.Mosts.{mosts};
ghost use Rattle.rules.specs.Numbers as No;
ghost use Rattle.rules.specs.State.{object_at, channel_at, slot_at};
ghost use Rattle.rules.specs.Tables.{operand_of};
ghost use Rattle.rules.specs.Turn.{check, is_foreign, is_iso_object, as_object, as_channel, permit, operand, left_by, are_apart, permit_swap, cast_line, put_line, sent_line, recv_line};
ghost use Rattle.table.specs.StateTable.{InTable, Sees, frame_at};
ghost use Rattle.checks.specs.declared.form_checks.Halt.TheVariants.{Stops};
ghost use Rattle.checks.specs.Checked.{result_of, outcome_of, answered, checked, Made, Fielded, InObjects, Few, swap_into, put_into, MethodBlock, Checks};

use rules::{Cap, Fault, Ground, Value};
use table::Here;

// What ends a line before it has moved: the thread waits, or the line stops the run.
#[derive(Clone, Copy, Debug, PartialEq, Eq)]
pub enum Halt {
    Waits,
    Stops(Fault),
}

impl From<Fault> for Halt {
    ghost from_gives = { λ f h. h ≡ Stops f };

    fn from(f: Fault) -> Halt {
        Halt::Stops(f)
    }
}

// ---- Values and capabilities

// The slot of an operand's word.
pub fn slot_of(w: u16) -> usize
    ensures { (result ≡ w / 2 % 16) × (result < 16) }
{
    w as usize / 2 % 16
}

// The object that a value is: "absent 10; a channel 13".
#[tactic(auto, unfolding(rules::specs::Turn::as_object))]
pub fn as_object(v: Value) -> Result<u16, Fault>
    ensures { answered result ≡ as_object v }
{
    match v {
        Value::Absent => Err(Fault::Absent),
        Value::Chan(_) => Err(Fault::WrongThing),
        Value::Obj(n) => Ok(n),
    }
}

// The channel that a value is: "absent 10; an object 13".
#[tactic(auto, unfolding(rules::specs::Turn::as_channel))]
pub fn as_channel(v: Value) -> Result<u16, Fault>
    ensures { answered result ≡ as_channel v }
{
    match v {
        Value::Absent => Err(Fault::Absent),
        Value::Obj(_) => Err(Fault::WrongThing),
        Value::Chan(c) => Ok(c),
    }
}

// Whether object n is local to another thread than t.
pub fn is_foreign(s: &[u16], t: usize, n: u16) -> bool
    requires { (8192 ≤ length s.now) × (n < 256) }
    ensures { Sees s.now (Made n) (λ S. is_foreign t (object_at S.objects n)) result }
{
    table::cap(s, n) == Cap::Local && table::creator(s, n) as usize != t
}

// Whether a value is an iso object.
pub fn is_iso_object(s: &[u16], v: Value) -> bool
    requires { (8192 ≤ length s.now) × InTable v }
    ensures { Sees s.now (InObjects v) (λ S. is_iso_object S.objects v) result }
{
    match v {
        Value::Absent => false,
        Value::Chan(_) => false,
        Value::Obj(n) => table::cap(s, n) == Cap::Iso,
    }
}

// A permission check: which of its grounds hold. "Where several hold, 20 goes before 19 and 19 before 14".
pub fn permission_check(foreign: bool, alias: bool, other: bool) -> Result<(), Fault>
    ensures { checked result ≡ permit foreign alias other }
{
    if foreign {
        return Err(Fault::from(Ground::Foreign));
    }
    if alias {
        return Err(Fault::from(Ground::Alias));
    }
    if other {
        return Err(Fault::from(Ground::Other));
    }
    Ok(())
}

// ---- Operands

// The value of the operand's slot: what it gives, where its check passes.
pub fn operand(s: &[u16], h: Here, w: u16) -> Value
    requires { 8192 ≤ length s.now }
    ensures in_table { InTable result }
    ensures sees { Sees s.now (λ S. InTable (slot_at (frame_at S h.thread h.depth).slots (w / 2 % 16))) (λ S. slot_at (frame_at S h.thread h.depth).slots (w / 2 % 16)) result }
{
    table::slot(s, h, slot_of(w))
}

// "operand: absent 10; a read of an iso object 19."
pub fn operand_check(s: &[u16], h: Here, w: u16) -> Result<(), Fault>
    requires { 8192 ≤ length s.now }
    ensures { Checks s.now h (w / 2 ∷ []) (λ P H. operand H.state.objects H.frame.slots (operand_of w)) (checked result) }
{
    let v = operand(s, h, w);
    match v {
        Value::Absent => Err(Fault::Absent),
        Value::Chan(_) => Ok(()),
        Value::Obj(n) => {
            if w % 2 == 1 {
                return Ok(());
            }
            permission_check(false, table::cap(s, n) == Cap::Iso, false)
        }
    }
}

// Slot i as the operand leaves it.
pub fn seen(s: &[u16], h: Here, i: u16, w: u16) -> Value
    requires { (8192 ≤ length s.now) × (i < 256) }
    ensures in_table { InTable result }
    ensures sees { Sees s.now (λ S. (i < 16) × InTable (slot_at (frame_at S h.thread h.depth).slots i)) (λ S. slot_at (left_by (frame_at S h.thread h.depth).slots (operand_of w)) i) result }
{
    if w == i * 2 + 1 {
        return Value::Absent;
    }
    table::slot(s, h, i as usize % 16)
}

// ---- The forms

// "cast: a channel 13; capability not K 15; else gives the value."
pub fn cast_check(s: &[u16], h: Here, k: Cap, w: u16) -> Result<(), Fault>
    requires { 8192 ≤ length s.now }
    ensures { Checks s.now h (w / 2 ∷ []) (λ P H. cast_line H k (operand_of w)) (checked result) }
{
    operand_check(s, h, w)?;
    let n = as_object(operand(s, h, w))?;
    if table::cap(s, n) == k {
        return Ok(());
    }
    Err(Fault::Cast)
}

// Objects n and m are "both local with other creators".
fn are_apart(s: &[u16], n: u16, m: u16) -> bool
    requires { (8192 ≤ length s.now) × (n < 256) × (m < 256) }
    ensures { Sees s.now (λ S. Made n S × Made m S) (λ S. are_apart (object_at S.objects n) (object_at S.objects m)) result }
{
    table::cap(s, n) == Cap::Local
        && table::cap(s, m) == Cap::Local
        && table::creator(s, n) != table::creator(s, m)
}

// Object m into object n: "A target local to another thread becomes 20, and so do swap's two locals with other creators".
fn is_foreign_swap(s: &[u16], t: usize, n: u16, m: u16) -> bool
    requires { (8192 ≤ length s.now) × (n < 256) × (m < 256) }
    ensures { Sees s.now (λ S. Made n S × Made m S) (λ S. is_foreign t (object_at S.objects n) || are_apart (object_at S.objects n) (object_at S.objects m)) result }
{
    is_foreign(s, t, n) || are_apart(s, n, m)
}

// The same, and "target imm, or .. value above the target, .. 14".
fn swap_permission(s: &[u16], t: usize, n: u16, m: u16) -> Result<(), Fault>
    requires { (8192 ≤ length s.now) × (n < 256) × (m < 256) }
    ensures { Sees s.now (λ S. Made n S × Made m S) (λ S. outcome_of (permit_swap t (object_at S.objects n) (object_at S.objects m))) (checked result) }
{
    let a = table::cap(s, n);
    let b = table::cap(s, m);
    let foreign = is_foreign_swap(s, t, n, m);
    let other = (a == Cap::Imm) | !rules::may_hold(a, b);
    permission_check(foreign, false, other)
}

// The value into field j of object n: "value a channel 13; no such field 11; .. 14" or 20.
pub fn swap_into(s: &[u16], t: usize, n: u16, j: u16, v: Value) -> Result<(), Fault>
    requires { (8192 ≤ length s.now) × (n < 256) × InTable v }
    ensures { Sees s.now (λ S. Fielded n S × InObjects v S) (λ S. outcome_of (swap_into t S.objects n j v)) (checked result) }
{
    let m = as_object(v)?;
    if table::field(s, n, j) == Value::Absent {
        return Err(Fault::NoField);
    }
    swap_permission(s, t, n, m)
}

// The block of method j of object n's kind.
pub fn method_block(p: &[u16], s: &[u16], n: u16, j: u16) -> Option<u16>
    requires { (8192 ≤ length p.now) × (8192 ≤ length s.now) × (n < 256) }
    ensures { MethodBlock p.now s.now n j result }
{
    if 4 <= j {
        return None;
    }
    let item = table::kind_method(p, table::kind(s, n) as usize % 32, j as usize);
    if item == 0 {
        return None;
    }
    Some(item - 1)
}

// "spawn: threads used up 16".
pub fn spawn_check(s: &[u16]) -> Result<(), Fault>
    requires { 8192 ≤ length s.now }
    ensures { Sees s.now (λ S. Few S) (λ S. outcome_of (check (ltb (length S.threads) mosts.threads) No.used_up)) (checked result) }
{
    if table::thread_count(s) < 16 {
        return Ok(());
    }
    Err(Fault::UsedUp)
}

// "recv: target absent 10; an object 13; empty: waits."
pub fn recv_check(s: &[u16], h: Here, i: u16) -> Result<(), Halt>
    requires { 8192 ≤ length s.now }
    ensures { Checks s.now h (i ∷ []) (λ P H. recv_line H i) (result_of result) }
{
    let c = as_channel(table::slot(s, h, i as usize % 16))?;
    if table::message(s, c) == Value::Absent {
        return Err(Halt::Waits); // empty
    }
    Ok(())
}

// "waits while the channel still holds the message with that number": the sender's word is d.
pub fn sent_check(s: &[u16], h: Here, i: u16, d: u16) -> Result<(), Halt>
    requires { (8192 ≤ length s.now) × (1 ≤ d) }
    ensures { Checks s.now h (i ∷ []) (λ P H. sent_line H i (d - 1)) (result_of result) }
{
    let c = as_channel(table::slot(s, h, i as usize % 16))?;
    if table::message(s, c) == Value::Absent {
        return Ok(());
    }
    if table::message_number(s, c) == d - 1 {
        return Err(Halt::Waits);
    }
    Ok(())
}

// The value into channel c: "value a channel 13; value local 14; channel full: waits".
pub fn put_into(s: &[u16], c: u16, v: Value) -> Result<(), Halt>
    requires { (8192 ≤ length s.now) × (c < 16) × InTable v }
    ensures { Sees s.now (λ S. InObjects v S × InTable (channel_at S c).message) (λ S. outcome_of (put_into S c v)) (result_of result) }
{
    let n = as_object(v)?;
    permission_check(false, false, table::cap(s, n) == Cap::Local)?;
    if table::message(s, c) == Value::Absent {
        return Ok(());
    }
    Err(Halt::Waits)
}

// "send: target absent 10; an object 13; value a channel 13; value local 14; channel full: waits."
pub fn put_check(s: &[u16], h: Here, i: u16, w: u16) -> Result<(), Halt>
    requires { (8192 ≤ length s.now) × (i < 256) }
    ensures { Checks s.now h (i ∷ w / 2 ∷ []) (λ P H. put_line H i (operand_of w)) (result_of result) }
{
    operand_check(s, h, w)?;
    let v = operand(s, h, w); // what is sent
    let c = as_channel(seen(s, h, i, w))?;
    put_into(s, c, v)
}
