// What is noted of the turns before, and the last turn that races with this one. Each row has a word for each of 16 threads: one more than the place of a
// turn of that thread, or 0. (An Option has no place in a word, and would double the 136 KB on the stack.)
ghost use Rattle.std.specs.Prelude.{◌≡◌, ◌+◌, ◌*◌, ◌≤◌, ◌<◌, cond, length};
ghost use Rattle.races.specs.Events.{ObjectBelow};
ghost use Rattle.races.specs.Marks.{Roomy, objects_in, MarksMet, MarksFields, first_of, MarksFirst, unhanded, latest_in, latest_on, later, race_on, over_fields, over_objects, Notes};

use rules::Event;

// Of each field of each object: the last turns that do something to it, and after each of these the first put of its thread that reaches the object.
#[derive(Drop)]
pub struct Rows {
    pub last: [u16; 16384],
    pub puts: [u16; 16384],
}

// Of each object the last receives that reach it; and the reads and the swaps of the fields.
#[derive(Drop)]
pub struct Marks {
    pub receives: [u16; 4096],
    pub reads: Rows,
    pub swaps: Rows,
}

// The place of a turn before, and what it races on.
#[derive(Clone, Copy)]
pub struct Found {
    pub turn: u16,
    pub object: u16,
    pub field: u16,
}

// ---- What a turn races with

// What a mark tells, if there is one.
fn race_on(mark: u16, object: u16, field: u16) -> Option<Found>
    ensures { result ≡ race_on mark object field }
{
    if mark == 0 {
        return None;
    }
    Some(Found {
        turn: mark - 1,
        object,
        field,
    })
}

// The later of two, and the first of them where they are one turn.
fn later(a: Option<Found>, b: Option<Found>) -> Option<Found>
    ensures { result ≡ later a b }
{
    match (a, b) {
        (Some(x), Some(y)) => { if x.turn < y.turn { b } else { a } }
        (Some(_), None) => a,
        (None, _) => b,
    }
}

// A mark, unless the first put after it was before the last receive: then it was handed over.
fn unhanded(mark: u16, put: u16, receive: u16) -> u16
    ensures { result ≡ unhanded mark put receive }
{
    if (0 < put) & (put < receive) { 0 } else { mark }
}

// The last mark in row a of another thread than t that was not handed over to t, whose last receive is q.
fn latest(rows: &Rows, a: usize, q: u16, t: usize) -> u16
    requires { a < 1024 }
    ensures { result ≡ latest_in rows.now.last rows.now.puts a q t 16 }
{
    let mut last: u16 = 0;
    for u in 0..16 {
        if u != t {
            last = last.max(unhanded(rows.last[a * 16 + u], rows.puts[a * 16 + u], q));
        }
    }
    last
}

// On field f of object n.
fn latest_on(rows: &Rows, receives: &[u16; 4096], t: usize, n: u16, f: u16) -> u16
    requires { (t < 16) × (n < 256) × (f < 4) }
    ensures { result ≡ latest_on rows.now.last rows.now.puts receives.now t n f }
{
    let a = n as usize * 4 + f as usize;
    latest(rows, a, receives[n as usize * 16 + t], t)
}

// The last turn that swaps a field of object n, if it is later than what is found.
fn over_fields(
    swaps: &Rows,
    receives: &[u16; 4096],
    t: usize,
    n: u16,
    first: Option<Found>,
) -> Option<Found>
    requires { (t < 16) × (n < 256) }
    ensures { result ≡ over_fields swaps.now.last swaps.now.puts receives.now t n first 4 }
{
    let mut found = first;
    for f in 0..4 {
        found = later(found, race_on(latest_on(swaps, receives, t, n, f), n, f));
    }
    found
}

// The same for each object met.
fn over_objects(swaps: &Rows, receives: &[u16; 4096], t: usize, objects: &[u16]) -> Option<Found>
    requires { t < 16 }
    ensures { result ≡ over_objects swaps.now.last swaps.now.puts receives.now t None (objects_in objects.now) }
{
    let mut found = None;
    for n in objects {
        found = over_fields(swaps, receives, t, *n % 256, found);
    }
    found
}

// ---- What is noted

// Thread t's word in the row of each object met.
fn mark_met(receives: &mut [u16; 4096], objects: &[u16], t: usize, mark: u16)
    requires { t < 16 }
    ensures { MarksMet (objects_in objects.now) t mark receives.old receives.new }
{
    for n in objects {
        receives[(*n % 256) as usize * 16 + t] = mark;
    }
}

// In the rows of all its fields.
fn mark_fields(reads: &mut [u16; 16384], objects: &[u16], t: usize, mark: u16)
    requires { t < 16 }
    ensures { MarksFields (objects_in objects.now) t mark reads.old reads.new }
{
    for n in objects {
        let at = (*n % 256) as usize * 64 + t;
        reads[at] = mark;
        reads[at + 16] = mark;
        reads[at + 32] = mark;
        reads[at + 48] = mark;
    }
}

// The mark, or an earlier one.
fn first_of(mark: u16, was: u16) -> u16
    ensures { result ≡ first_of mark was }
{
    if was == 0 { mark } else { was }
}

// In the rows of all its fields, where no put is noted yet. (One function over a closure for this and `mark_fields` would owe a law more: that a word
// marked twice, by an object met twice, is as marked once.)
fn mark_first(puts: &mut [u16; 16384], objects: &[u16], t: usize, mark: u16)
    requires { t < 16 }
    ensures { MarksFirst (objects_in objects.now) t mark puts.old puts.new }
{
    for n in objects {
        let at = (*n % 256) as usize * 64 + t;
        puts[at] = first_of(mark, puts[at]);
        puts[at + 16] = first_of(mark, puts[at + 16]);
        puts[at + 32] = first_of(mark, puts[at + 32]);
        puts[at + 48] = first_of(mark, puts[at + 48]);
    }
}

// A turn of thread t that moves: what it races with is found, and then it is noted.
pub fn note(marks: &mut Marks, event: Event, objects: &[u16], t: usize, mark: u16) -> Option<Found>
    requires { ObjectBelow 256 event × (t < 16) }
    ensures roomy { Roomy marks.old }
    ensures notes { Notes event (objects_in objects.now) t mark marks.old marks.new result }
{
    match event {
        Event::Quiet => None,
        Event::Reads(n, f) => {
            let field = f % 4;
            let at = (n as usize * 4 + field as usize) * 16 + t;
            let last = latest_on(&marks.swaps, &marks.receives, t, n, field);
            marks.reads.last[at] = mark;
            marks.reads.puts[at] = 0;
            race_on(last, n, field)
        }
        Event::Swaps(n, f) => {
            let field = f % 4;
            let at = (n as usize * 4 + field as usize) * 16 + t;
            let swapped = latest_on(&marks.swaps, &marks.receives, t, n, field);
            let read = latest_on(&marks.reads, &marks.receives, t, n, field);
            marks.swaps.last[at] = mark;
            marks.swaps.puts[at] = 0;
            race_on(swapped.max(read), n, field)
        }
        Event::Puts(_) => {
            mark_first(&mut marks.reads.puts, objects, t, mark);
            mark_first(&mut marks.swaps.puts, objects, t, mark);
            None
        }
        Event::Receives(_) => {
            mark_met(&mut marks.receives, objects, t, mark);
            None
        }
        Event::Copies(_) => {
            let found = over_objects(&marks.swaps, &marks.receives, t, objects);
            mark_fields(&mut marks.reads.last, objects, t, mark);
            mark_fields(&mut marks.reads.puts, objects, t, 0);
            found
        }
    }
}
