// A copy: the objects met are numbered and checked, then each is copied, and what the copy holds gets a holder more; then the let gives the first copy. A
// copy that stops has written nothing.
ghost use Rattle.std.specs.Prelude.{◌≡◌, ◌+◌, ◌≤◌, ◌<◌, length};
ghost use Rattle.rules.specs.Lists.{any, Every};
ghost use Rattle.rules.specs.Script.{copy, bind};
ghost use Rattle.rules.specs.State.{object_at, slot_at};
ghost use Rattle.rules.specs.Turn.{is_foreign};
ghost use Rattle.table.specs.StateTable.{InTable, Sees, FieldIn, all_raised, Counts};
ghost use Rattle.checks.specs.Checked.{checked};
ghost use Rattle.turn.specs.Performed.{Always, Performs};
ghost use Rattle.turn.specs.Copied.{AllMade, renamed_by, CopiesOne, CopiesAll, CopiesFrom};

use super::Move;
use checks::Halt;
use rules::{Cap, Fault, Ground, Value};
use table::Here;

// Whether any of the objects met is local to another thread than t.
fn any_foreign_met(s: &[u16], t: usize, order: &[u16]) -> bool
    requires { 8192 ≤ length s.now }
    ensures { Sees s.now (AllMade order.now) (λ S. any (λ i. is_foreign t (object_at S.objects i)) order.now) result }
{
    order.iter().any(|o| checks::is_foreign(s, t, *o % 256))
}

// Each value gets a holder more.
fn hold_all(s: &mut [u16], values: [Value; 4])
    requires { (8192 ≤ length s.old) × Every InTable values }
    ensures { Counts (all_raised values) s.old s.new }
{
    for v in values {
        table::hold(s, v);
    }
}

// A copy: the thread that makes it and the word of its capability; `places` has one more than the place of each object met, and the copy of the one at
// place i has number first + i.
#[derive(Clone, Copy)]
struct Copying<'a> {
    creator: u16,
    cap: u16, // as `table::add_object` takes it
    places: &'a [u16],
    first: usize,
    ghost long: { 256 ≤ length places.now },
    ghost few: { first ≤ 256 },
}

impl<'a> Copying<'a> {
    // What a copy holds where its source holds v.
    fn renamed(&self, v: Value) -> Value
        requires { InTable v }
        ensures { (result ≡ renamed_by self.now.places.now self.now.first v) × InTable result }
    {
        match v {
            Value::Absent => Value::Absent,
            Value::Chan(c) => Value::Chan(c),
            Value::Obj(x) => {
                let number = ((self.first + self.places[x as usize] as usize + 255) % 256) as u16; // 255 more is one less
                Value::Obj(number)
            }
        }
    }

    // Field j of object o's copy; absent where the object has no such field.
    fn field(&self, s: &[u16], o: u16, j: u16) -> Value
        requires { (8192 ≤ length s.now) × (o < 256) }
        ensures in_table { InTable result }
        ensures sees { Sees s.now (λ S. FieldIn o j S) (λ S. renamed_by self.now.places.now self.now.first (slot_at (object_at S.objects o).fields j)) result }
    {
        self.renamed(table::field(s, o, j))
    }

    // The copy of object o is made, with number n, and each of its fields is held.
    fn add_one(&self, s: &mut [u16], n: u16, o: u16)
        requires { (8192 ≤ length s.old) × (n < 256) × (o < 256) }
        ensures { CopiesOne self.now.creator self.now.cap self.now.places.now self.now.first n o s.old s.new }
    {
        let kind = table::kind(s, o);
        let a = self.field(s, o, 0);
        let b = self.field(s, o, 1);
        let c = self.field(s, o, 2);
        let d = self.field(s, o, 3);
        table::add_object(s, self.creator, n, self.cap, kind, a, b, c, d);
        hold_all(s, [a, b, c, d]);
    }

    // The objects met are copied, in order.
    fn add_all(&self, s: &mut [u16], order: &[u16])
        requires { (8192 ≤ length s.old) × (self.now.first + length order.now ≤ 256) }
        ensures { CopiesAll self.now.creator self.now.cap self.now.places.now self.now.first order.now s.old s.new }
    {
        for i in 0..order.len() {
            self.add_one(s, (self.first + i) as u16, order[i] % 256);
        }
    }
}

// The objects met from object n are copied, unless "any object met local to another thread 20, too few objects left for all copies 16".
fn copy_from(s: &mut [u16], t: usize, cap: u16, n: u16) -> Result<(), Fault>
    requires { (8192 ≤ length s.old) × (t < 16) × (n < 256) }
    ensures { CopiesFrom t cap n s.old (checked result) s.new }
{
    let mut places = [0u16; 256];
    let mut order = [0u16; 256];
    // a function and its lists, not a `Met`: through that, the proof did not see the list after the loan
    let count = walk::walk(s, &mut places, &mut order, 0, Value::Obj(n));
    let first = table::object_count(s) as usize;
    let foreign = any_foreign_met(s, t, &order[..count]);
    let used_up = 256 < first + count;
    if foreign {
        return Err(Fault::from(Ground::Foreign));
    }
    if used_up {
        return Err(Fault::UsedUp);
    }
    let copying = Copying {
        creator: t as u16,
        cap,
        places: &places,
        first,
    };
    copying.add_all(s, &order[..count]);
    Ok(())
}

// "slot absent 10, a channel 13, .. The slot keeps its value, even an iso."
pub fn copy_line(s: &mut [u16], h: Here, k: Cap, i: u16) -> Result<Move, Halt>
    requires { 8192 ≤ length s.old }
    ensures { Performs Always s.old h (bind (copy k i)) result s.new }
{
    let n = checks::as_object(table::slot(s, h, i as usize % 16))?;
    let first = table::object_count(s) % 256;
    copy_from(s, h.thread, k.rank() as u16, n)?;
    table::give_value(s, h, Value::Obj(first));
    table::hold(s, Value::Obj(first));
    Ok(Move::Next)
}
