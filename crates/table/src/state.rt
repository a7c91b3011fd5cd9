// The state table: counts, objects of eight words, threads of 306, channels of two. Values are packed and unpacked here alone. The writers keep
// every object's holder count; `hold` and `release` alone change one, and `drop_frame` by them.
ghost use Rattle.std.specs.Prelude.{◌≡◌, ◌+◌, ◌-◌, ◌*◌, ◌/◌, ◌%◌, ◌<◌, ◌≤◌, [], ◌∷◌, length, slice_index, slice_set};
ghost use Rattle.rules.specs.declared.Value.TheVariants.{Absent};
ghost use Rattle.rules.specs.State.{object_at, thread_at, channel_at, slot_at};
ghost use Rattle.rules.specs.Tables.{cap_of, word, sender_word};
ghost use Rattle.rules.specs.Turn.{started};
ghost use Rattle.table.specs.StateTable.{value_of, InTable, Starts, Sees, Becomes, Any, Stands, frame_at, given, cleared, HasRoom, HasSlot, FieldIn, HasField, stored, channelled, Puts, sending, Makes, Next, Innermost, callee, called, left, recount, raised, lowered, counted_by, Counts, Stores, Releases, Drops};

use super::standing::Here;
use rules::{Cap, Value};

// 0 is absent, 1 + n object n, 257 + c channel c.
// (Kept functions: `Value` is of rules, which knows no table, so no `From` of it can stand here; and `pack` has a `requires`, as no `From` may.)
fn unpack(w: u16) -> Value
    ensures { (result ≡ value_of w) × InTable result }
{
    match w {
        0 => Value::Absent,
        1..=256 => Value::Obj(w - 1),
        _ => Value::Chan((w - 257) % 16),
    }
}

fn pack(v: Value) -> u16
    requires { InTable v }
    ensures { result ≡ word v }
{
    match v {
        Value::Absent => 0,
        Value::Obj(n) => n + 1,
        Value::Chan(c) => c + 257,
    }
}

// ---- Reading (one function for each word, kept apart: their names tell what they read)

#[tactic(auto, using(crate::proofs::StateReads::objects_seen))]
pub fn object_count(s: &[u16]) -> u16
    requires { 8192 ≤ length s.now }
    ensures value { result ≡ slice_index s.now 0 }
    ensures sees { Sees s.now Any (λ S. length S.objects) result }
{
    s[0] // how many objects
}

#[tactic(auto, using(crate::proofs::StateReads::threads_seen))]
pub fn thread_count(s: &[u16]) -> u16
    requires { 8192 ≤ length s.now }
    ensures value { result ≡ slice_index s.now 1 }
    ensures sees { Sees s.now Any (λ S. length S.threads) result }
{
    s[1] // how many threads
}

// How many frames thread t has.
pub fn frame_count(s: &[u16], t: usize) -> u16
    requires { (8192 ≤ length s.now) × (t < 16) }
    ensures value { result ≡ slice_index s.now (2056 + t * 306) }
    ensures sees { Sees s.now Any (λ S. length (thread_at S t).frames) result }
{
    s[2056 + t * 306] // how many frames
}

// 0 where thread t is ready, one more than the number of the message that it waits for as a sender.
pub fn sender(s: &[u16], t: usize) -> u16
    requires { (8192 ≤ length s.now) × (t < 16) }
    ensures value { result ≡ slice_index s.now (2057 + t * 306) }
    ensures sees { Sees s.now Any (λ S. sender_word (thread_at S t).sender) result }
{
    s[2057 + t * 306] // what it waits for
}

// The block, the line and the number of filled slots of frame k of thread t.
pub fn frame_block(s: &[u16], t: usize, k: usize) -> u16
    requires { (8192 ≤ length s.now) × (t < 16) × (k < 16) }
    ensures value { result ≡ slice_index s.now (2058 + t * 306 + k * 19) }
    ensures sees { Sees s.now Any (λ S. (frame_at S t k).block) result }
{
    s[2058 + t * 306 + k * 19]
}

pub fn frame_line(s: &[u16], t: usize, k: usize) -> u16
    requires { (8192 ≤ length s.now) × (t < 16) × (k < 16) }
    ensures value { result ≡ slice_index s.now (2059 + t * 306 + k * 19) }
    ensures sees { Sees s.now Any (λ S. (frame_at S t k).line) result }
{
    s[2059 + t * 306 + k * 19]
}

pub fn slot_count(s: &[u16], t: usize, k: usize) -> u16
    requires { (8192 ≤ length s.now) × (t < 16) × (k < 16) }
    ensures value { result ≡ slice_index s.now (2060 + t * 306 + k * 19) }
    ensures sees { Sees s.now Any (λ S. length (frame_at S t k).slots) result }
{
    s[2060 + t * 306 + k * 19]
}

// Slot i of the frame; absent where it is not filled.
pub fn slot(s: &[u16], h: Here, i: usize) -> Value
    requires { (8192 ≤ length s.now) × (i < 16) }
    ensures value { (result ≡ value_of (slice_index s.now (h.frame + 3 + i))) × InTable result }
    ensures sees { Sees s.now (λ S. InTable (slot_at (frame_at S h.thread h.depth).slots i)) (λ S. slot_at (frame_at S h.thread h.depth).slots i) result }
{
    unpack(s[h.frame + 3 + i])
}

// Slot i of frame k of thread t; absent where it is not filled.
pub fn frame_slot(s: &[u16], t: usize, k: usize, i: usize) -> Value
    requires { (8192 ≤ length s.now) × (t < 16) × (k < 16) × (i < 16) }
    ensures value { (result ≡ value_of (slice_index s.now (2061 + t * 306 + k * 19 + i))) × InTable result }
    ensures sees { Sees s.now (λ S. InTable (slot_at (frame_at S t k).slots i)) (λ S. slot_at (frame_at S t k).slots i) result }
{
    unpack(s[2061 + t * 306 + k * 19 + i])
}

pub fn cap(s: &[u16], o: u16) -> Cap
    requires { (8192 ≤ length s.now) × (o < 256) }
    ensures value { result ≡ cap_of (slice_index s.now (8 + o * 8)) }
    ensures sees { Sees s.now (λ S. o < length S.objects) (λ S. (object_at S.objects o).cap) result }
{
    Cap::from(s[8 + o as usize * 8])
}

pub fn kind(s: &[u16], o: u16) -> u16
    requires { (8192 ≤ length s.now) × (o < 256) }
    ensures value { result ≡ slice_index s.now (9 + o * 8) }
    ensures sees { Sees s.now (λ S. o < length S.objects) (λ S. (object_at S.objects o).kind) result }
{
    s[9 + o as usize * 8]
}

pub fn creator(s: &[u16], o: u16) -> u16
    requires { (8192 ≤ length s.now) × (o < 256) }
    ensures value { result ≡ slice_index s.now (10 + o * 8) }
    ensures sees { Sees s.now (λ S. o < length S.objects) (λ S. (object_at S.objects o).creator) result }
{
    s[10 + o as usize * 8]
}

// Field j of object o; absent where the object has no such field.
pub fn field(s: &[u16], o: u16, j: u16) -> Value
    requires { (8192 ≤ length s.now) × (o < 256) }
    ensures in_table { InTable result }
    ensures sees { Sees s.now (λ S. FieldIn o j S) (λ S. slot_at (object_at S.objects o).fields j) result }
{
    if 4 <= j {
        return Value::Absent;
    }
    unpack(s[12 + o as usize * 8 + j as usize])
}

pub fn message(s: &[u16], c: u16) -> Value
    requires { (8192 ≤ length s.now) × (c < 16) }
    ensures value { (result ≡ value_of (slice_index s.now (6952 + c * 2))) × InTable result }
    ensures sees { Sees s.now (λ S. InTable (channel_at S c).message) (λ S. (channel_at S c).message) result }
{
    unpack(s[6952 + c as usize * 2])
}

pub fn message_number(s: &[u16], c: u16) -> u16
    requires { (8192 ≤ length s.now) × (c < 16) }
    ensures value { result ≡ slice_index s.now (6953 + c * 2) }
    ensures sees { Sees s.now Any (λ S. (channel_at S c).number) result }
{
    s[6953 + c as usize * 2] // after the message
}

// ---- Holder counts

// How many places hold object o.
#[tactic(auto, using(crate::proofs::StateReads::count_stored))]
pub fn holder_count(s: &[u16], o: u16) -> u16
    requires { (8192 ≤ length s.now) × (o < 256) }
    ensures value { result ≡ slice_index s.now (11 + o * 8) }
    ensures stores { Stores s.now o result }
{
    s[11 + o as usize * 8]
}

// The count of an object's holders goes up by d; nothing else has one.
fn recount(s: &mut [u16], v: Value, d: u16)
    requires { (8192 ≤ length s.old) × InTable v }
    ensures s_after { s.new ≡ counted_by d v s.old }
    ensures counts { Counts (recount d v) s.old s.new }
{
    if let Value::Obj(n) = v {
        let at = 11 + n as usize * 8;
        s[at] = s[at].wrapping_add(d);
    }
}

// The value gets a holder more.
pub fn hold(s: &mut [u16], v: Value)
    requires { (8192 ≤ length s.old) × InTable v }
    ensures s_after { s.new ≡ counted_by 1 v s.old }
    ensures counts { Counts (raised v) s.old s.new }
{
    recount(s, v, 1);
}

// The value gets a holder less.
pub fn release(s: &mut [u16], v: Value)
    requires { (8192 ≤ length s.old) × InTable v }
    ensures s_after { s.new ≡ counted_by 65535 v s.old }
    ensures counts { Counts (lowered v) s.old s.new }
{
    recount(s, v, 65535); // one less
}

// ---- Where a thread stands

// Thread t with d frames, at its innermost one.
pub fn locate(p: &[u16], s: &[u16], t: usize, d: u16) -> Here
    requires { (8192 ≤ length p.now) × (8192 ≤ length s.now) × (t < 16) × (1 ≤ d) }
    ensures thread { result.thread ≡ t }
    ensures stands { Stands p.now s.now d result }
{
    let depth = (d - 1) as usize % 16;
    let b = frame_block(s, t, depth) as usize % 64;
    let l = frame_line(s, t, depth) as usize;
    let first = super::program::first_line(p, b);
    Here {
        thread: t,
        depth,
        frame: 2058 + t * 306 + depth * 19,
        row: (72 + (first + l) * 8) % 8192,
    }
}

// ---- Writing

// A value goes to the next slot of frame k of thread t, whose place is `at`, and the frame to its next line; the thread is ready.
fn push_value(s: &mut [u16], t: usize, k: usize, at: usize, v: Value)
    requires { (8192 ≤ length s.old) × (t < 16) × (k < 16) × (at ≡ 2058 + t * 306 + k * 19) × InTable v }
    ensures { Becomes s.old (HasRoom t k) (given t k v) s.new }
{
    let n = s[at + 2] % 16;
    s[at + 3 + n as usize] = pack(v);
    s[at + 1] = s[at + 1] % 32768 + 1;
    s[at + 2] = n + 1;
    s[2057 + t * 306] = 0;
}

// The let gives this value.
pub fn give_value(s: &mut [u16], h: Here, v: Value)
    requires { (8192 ≤ length s.old) × InTable v }
    ensures { Becomes s.old (HasRoom h.thread h.depth) (given h.thread h.depth v) s.new }
{
    push_value(s, h.thread, h.depth, h.frame, v);
}

// The caller's let gives this value.
pub fn return_value(s: &mut [u16], h: Here, v: Value)
    requires { (8192 ≤ length s.old) × (1 ≤ h.depth) × InTable v }
    ensures { Becomes s.old (HasRoom h.thread (h.depth - 1)) (given h.thread (h.depth - 1) v) s.new }
{
    push_value(s, h.thread, h.depth - 1, h.frame - 19, v);
}

// Slot i is made absent.
pub fn clear_slot(s: &mut [u16], h: Here, i: usize)
    requires { (8192 ≤ length s.old) × (i < 16) }
    ensures s_after { s.new ≡ slice_set s.old (h.frame + 3 + i) 0 }
    ensures becomes { Becomes s.old (HasSlot h.thread h.depth i) (cleared h.thread h.depth i) s.new }
{
    s[h.frame + 3 + i] = 0;
}

// Field j of object o takes this value.
pub fn store_field(s: &mut [u16], o: u16, j: u16, v: Value)
    requires { (8192 ≤ length s.old) × (o < 256) × (j < 4) × InTable v }
    ensures s_after { s.new ≡ slice_set s.old (12 + o * 8 + j) (word v) }
    ensures becomes { Becomes s.old (HasField o j) (stored o j v) s.new }
{
    s[12 + o as usize * 8 + j as usize] = pack(v);
}

// Channel c takes this value as its next message, and the thread waits as its sender.
pub fn put_message(s: &mut [u16], h: Here, c: u16, v: Value)
    requires { (8192 ≤ length s.old) × (c < 16) × InTable v }
    ensures { Becomes s.old (Puts h.thread c) (λ S. sending h.thread ((channel_at S c).number + 1) (channelled c v ((channel_at S c).number + 1) S)) s.new }
{
    let n = s[6953 + c as usize * 2] % 32768 + 1;
    s[6952 + c as usize * 2] = pack(v);
    s[6953 + c as usize * 2] = n;
    s[2057 + h.thread * 306] = n + 1;
}

// Channel c is emptied.
pub fn empty_channel(s: &mut [u16], c: u16)
    requires { (8192 ≤ length s.old) × (c < 16) }
    ensures s_after { s.new ≡ slice_set s.old (6952 + c * 2) 0 }
    ensures becomes { Becomes s.old (λ S. c < length S.channels) (λ S. channelled c Absent (channel_at S c).number S) s.new }
{
    s[6952 + c as usize * 2] = 0;
}

// Object n is made, with these values as its fields: Absent for each that its kind does not have.
// (Kept apart: by tests/straight.py the crates that read have no array but the table.)
pub fn add_object(
    s: &mut [u16],
    creator: u16,
    n: u16,
    cap: u16,
    kind: u16,
    a: Value,
    b: Value,
    c: Value,
    d: Value,
)
    requires { (8192 ≤ length s.old) × (n < 256) × InTable a × InTable b × InTable c × InTable d }
    ensures { Makes creator n cap kind (a ∷ b ∷ c ∷ d ∷ []) s.old s.new }
{
    let at = 8 + n as usize * 8;
    s[at] = cap;
    s[at + 1] = kind;
    s[at + 2] = creator;
    s[at + 4] = pack(a); // behind its holder count, which stays
    s[at + 5] = pack(b);
    s[at + 6] = pack(c);
    s[at + 7] = pack(d);
    s[0] = n + 1;
}

// Thread n is started before the first line of block b, with its channel in slot 0.
pub fn start_thread(s: &mut [u16], n: u16, b: u16)
    requires { (8192 ≤ length s.old) × (n < 16) }
    ensures { Becomes s.old (λ S. Next n S) (λ S. started S b) s.new }
{
    let at = 2056 + n as usize * 306;
    s[at] = 1;
    s[at + 2] = b;
    s[at + 4] = 1;
    s[at + 5] = n + 257;
    s[1] = n + 1;
}

// A new frame inside, before the first line of block b, with these values.
pub fn push_frame(s: &mut [u16], h: Here, b: u16, target: Value, v: Value)
    requires { (8192 ≤ length s.old) × (h.depth < 15) × InTable target × InTable v }
    ensures { Becomes s.old (Innermost h.thread h.depth) (called h.thread (callee b target v)) s.new }
{
    let at = h.frame + 19;
    s[at] = b;
    s[at + 2] = 2;
    s[at + 3] = pack(target);
    s[at + 4] = pack(v);
    s[2056 + h.thread * 306] = h.depth as u16 + 2;
    s[2057 + h.thread * 306] = 0;
}

// The innermost frame's words are zero again.
fn clear_frame(s: &mut [u16], h: Here)
    requires { 8192 ≤ length s.old }
    ensures { Becomes s.old (Innermost h.thread h.depth) (left h.thread) s.new }
{
    s[h.frame..h.frame + 19].fill(0);
    s[2056 + h.thread * 306] = h.depth as u16;
    s[2057 + h.thread * 306] = 0;
}

// Each value in the innermost frame's slots gets a holder less.
fn release_slots(s: &mut [u16], h: Here)
    requires { 8192 ≤ length s.old }
    ensures { Releases h.thread h.depth s.old s.new }
{
    let n = slot_count(s, h.thread, h.depth) as usize % 17;
    for i in 0..n {
        let v = slot(s, h, i);
        release(s, v);
    }
}

// The innermost frame ends.
pub fn drop_frame(s: &mut [u16], h: Here)
    requires { 8192 ≤ length s.old }
    ensures { Drops h.thread h.depth s.old s.new }
{
    release_slots(s, h);
    clear_frame(s, h);
}

// "no object, no channel, no move, and thread 0 alone, before the first line of block 0, its slot 0 absent", in words that are all 0.
pub fn start_state(s: &mut [u16])
    requires { 8192 ≤ length s.old }
    ensures s_after { s.new ≡ slice_set (slice_set (slice_set s.old 1 1) 2056 1) 2060 1 }
    ensures starts { Starts s.old s.new }
{
    s[1] = 1;
    s[2056] = 1;
    s[2060] = 1;
}
