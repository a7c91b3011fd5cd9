// The checks of new. Its operands are items, each one more than an operand's word, 0 where there is none.
ghost use Rattle.std.specs.Prelude.{◌≡◌, ◌||◌, [], ◌∷◌, ◌≤◌, ◌<◌, length};
ghost use Rattle.rules.specs.Lists.{any, Every};
ghost use Rattle.rules.specs.State.{slot_at};
ghost use Rattle.table.specs.StateTable.{InTable, Sees, frame_at};
ghost use Rattle.checks.specs.Checked.{checked, InObjects, Checks};
ghost use Rattle.checks.specs.NewItems.{left_by_items, item_slots, item_operand, item_value, takes_slot, foreign_to, above, AllInObjects, ItemsRead, ChecksItems, ChecksHeld};

use super::form_checks::{is_foreign, operand, operand_check, permission_check};
use rules::{Cap, Fault, Value};
use table::Here;

// Whether item a takes the slot of item e.
fn takes_slot(a: u16, e: u16) -> bool
    ensures { result ≡ takes_slot a e }
{
    if e == 0 {
        return false;
    }
    a as usize == (e as usize - 1) / 2 * 2 + 2
}

// The operand of item e, which sees what the items before it took.
fn item_check(s: &[u16], h: Here, before: &[u16], e: u16) -> Result<(), Fault>
    requires { 8192 ≤ length s.now }
    ensures { Checks s.now h (item_slots e) (λ P H. item_operand H.state.objects (left_by_items H.frame.slots before.now) e) (checked result) }
{
    if e == 0 {
        return Ok(());
    }
    if before.iter().any(|a| takes_slot(*a, e)) {
        return Err(Fault::Absent);
    }
    operand_check(s, h, e - 1)
}

// "All operands come first, left to right, each seeing what the earlier ones took."
pub fn items_check(s: &[u16], h: Here, items: [u16; 4]) -> Result<(), Fault>
    requires { 8192 ≤ length s.now }
    ensures { ChecksItems s.now h items (checked result) }
{
    for i in 0..4 {
        item_check(s, h, &items[..i], items[i])?;
    }
    Ok(())
}

// The value of an item's slot; absent where there is no item.
pub fn item_value(s: &[u16], h: Here, e: u16) -> Value
    requires { 8192 ≤ length s.now }
    ensures in_table { InTable result }
    ensures sees { Sees s.now (λ S. Every (λ i. (i < 16) × InTable (slot_at (frame_at S h.thread h.depth).slots i)) (item_slots e)) (λ S. item_value (frame_at S h.thread h.depth).slots e) result }
{
    if e == 0 {
        return Value::Absent;
    }
    operand(s, h, e - 1)
}

// The values of these items, in order.
pub fn item_values(s: &[u16], h: Here, items: [u16; 4]) -> [Value; 4]
    requires { 8192 ≤ length s.now }
    ensures in_table { Every InTable result }
    ensures read { ItemsRead s.now h items result }
{
    [
        item_value(s, h, items[0]),
        item_value(s, h, items[1]),
        item_value(s, h, items[2]),
        item_value(s, h, items[3]),
    ]
}

// Whether a value is local to another thread than t. (It and the next are one match each, kept apart: a function over a closure would be as long.)
fn is_foreign_value(s: &[u16], t: usize, v: Value) -> bool
    requires { (8192 ≤ length s.now) × InTable v }
    ensures { Sees s.now (InObjects v) (λ S. foreign_to t S v) result }
{
    match v {
        Value::Absent => false,
        Value::Chan(_) => false,
        Value::Obj(n) => is_foreign(s, t, n),
    }
}

// Whether a value is above capability c.
fn is_above(s: &[u16], c: Cap, v: Value) -> bool
    requires { (8192 ≤ length s.now) × InTable v }
    ensures { Sees s.now (InObjects v) (λ S. above c S v) result }
{
    match v {
        Value::Absent => false,
        Value::Chan(_) => false,
        Value::Obj(n) => !rules::may_hold(c, table::cap(s, n)),
    }
}

// Whether any value is local to another thread than t.
fn any_foreign(s: &[u16], t: usize, values: &[Value]) -> bool
    requires { (8192 ≤ length s.now) × Every InTable values.now }
    ensures { Sees s.now (AllInObjects values.now) (λ S. any (foreign_to t S) values.now) result }
{
    values.iter().any(|v| is_foreign_value(s, t, *v))
}

// Whether any value is above capability k.
fn any_above(s: &[u16], k: Cap, values: &[Value]) -> bool
    requires { (8192 ≤ length s.now) × Every InTable values.now }
    ensures { Sees s.now (AllInObjects values.now) (λ S. any (above k S) values.now) result }
{
    values.iter().any(|v| is_above(s, k, *v))
}

// The most objects of a run.
const OBJECTS: u16 = 256;

// "any value a channel 13; any value above K, .. 14", or 20 for "new's value that is local with another creator"; "objects used up 16".
pub fn hold_check(s: &[u16], t: usize, k: Cap, values: [Value; 4]) -> Result<(), Fault>
    requires { (8192 ≤ length s.now) × Every InTable values }
    ensures { ChecksHeld s.now t k values (checked result) }
{
    if values.iter().any(|v| matches!(v, Value::Chan(_))) {
        return Err(Fault::WrongThing);
    }
    let foreign = any_foreign(s, t, &values);
    let other = any_above(s, k, &values);
    permission_check(foreign, false, other)?;
    if table::object_count(s) < OBJECTS {
        return Ok(());
    }
    Err(Fault::UsedUp)
}
