// The lines of the state that a run left, read from its table. Objects, channels, threads, slots and fields are a loop of one call each (kept apart: one
// function over a closure would be as long, and its callers longer).
ghost use Rattle.std.specs.Prelude.{◌∷◌, ◌≤◌, ◌<◌, length, drop};
ghost use Rattle.rules.specs.Text.{space};
ghost use Rattle.rules.specs.State.{object_at, thread_at, channel_at};
ghost use Rattle.rules.specs.Listing.{object_line, channel_line, sender_text, thread_line, numbered, state_lines};
ghost use Rattle.table.specs.StateTable.{Any, frame_at};
ghost use Rattle.buffer.specs.Outputs.{HasRoom};
ghost use Rattle.listing.specs.StateWriting.{Writes, value_parts, object_parts, frame_parts, Inner};

use super::values::{put_field, put_message, put_value};
use buffer::Output;

// ---- Objects

fn put_fields(out: &mut Output, s: &[u16], o: u16)
    requires { HasRoom 52 out.old × (8192 ≤ length s.now) × (o < 256) }
    ensures { Writes 52 s.now out.old out.new (λ S. o < length S.objects) (λ S. value_parts (object_at S.objects o).fields) }
{
    for j in 0..4 {
        put_field(out, table::field(s, o, j));
    }
}

// Its capability, kind, creator and fields.
fn put_traits(out: &mut Output, s: &[u16], o: u16)
    requires { HasRoom 71 out.old × (8192 ≤ length s.now) × (o < 256) }
    ensures { Writes 71 s.now out.old out.new (λ S. o < length S.objects) (λ S. object_parts (object_at S.objects o)) }
{
    out.put_cap(table::cap(s, o));
    out.put_number(table::kind(s, o) as usize);
    out.put_number(table::creator(s, o) as usize);
    put_fields(out, s, o);
}

fn put_object(out: &mut Output, s: &[u16], o: u16)
    requires { HasRoom 86 out.old × (8192 ≤ length s.now) × (o < 256) }
    ensures { Writes 86 s.now out.old out.new (λ S. o < length S.objects) (λ S. object_line o (object_at S.objects o)) }
{
    out.put_text(b"(object");
    out.put_number(o as usize);
    put_traits(out, s, o);
    out.put_text(b")\n");
}

fn put_objects(out: &mut Output, s: &[u16])
    requires { HasRoom 22016 out.old × (8192 ≤ length s.now) }
    ensures { Writes 22016 s.now out.old out.new Any (λ S. numbered object_line 0 S.objects) }
{
    for o in 0..table::object_count(s) % 257 {
        put_object(out, s, o);
    }
}

// ---- Channels

fn put_channel(out: &mut Output, s: &[u16], c: u16)
    requires { HasRoom 29 out.old × (8192 ≤ length s.now) × (c < 16) }
    ensures { Writes 29 s.now out.old out.new Any (λ S. channel_line c (channel_at S c)) }
{
    out.put_text(b"(channel");
    out.put_number(c as usize);
    put_message(out, table::message(s, c));
    out.put_text(b")\n");
}

// There is a channel beside each thread but thread 0.
fn put_channels(out: &mut Output, s: &[u16])
    requires { HasRoom 464 out.old × (8192 ≤ length s.now) }
    ensures { Writes 464 s.now out.old out.new Any (λ S. numbered channel_line 1 (drop 1 S.channels)) }
{
    for c in 1..table::thread_count(s) % 17 {
        put_channel(out, s, c);
    }
}

// ---- Threads

// Ready, or waiting as a sender.
fn put_sender(out: &mut Output, s: &[u16], t: usize)
    requires { HasRoom 8 out.old × (8192 ≤ length s.now) × (t < 16) }
    ensures { Writes 8 s.now out.old out.new Any (λ S. space ∷ sender_text (thread_at S t).sender) }
{
    if table::sender(s, t) == 0 {
        out.put_text(b" ready");
    } else {
        out.put_text(b" waiting");
    }
}

// The filled slots of thread t's innermost frame, which is frame k.
fn put_slots(out: &mut Output, s: &[u16], t: usize, k: usize)
    requires { HasRoom 208 out.old × (8192 ≤ length s.now) × (t < 16) × (k < 16) }
    ensures { Writes 208 s.now out.old out.new (Inner t k) (λ S. value_parts (frame_at S t k).slots) }
{
    for i in 0..table::slot_count(s, t, k) as usize % 17 {
        put_value(out, table::frame_slot(s, t, k, i));
    }
}

// Its block, line and filled slots.
fn put_frame(out: &mut Output, s: &[u16], t: usize, k: usize)
    requires { HasRoom 220 out.old × (8192 ≤ length s.now) × (t < 16) × (k < 16) }
    ensures { Writes 220 s.now out.old out.new (Inner t k) (λ S. frame_parts (frame_at S t k)) }
{
    out.put_number(table::frame_block(s, t, k) as usize);
    out.put_number(table::frame_line(s, t, k) as usize);
    put_slots(out, s, t, k);
}

// A finished thread has no frame; the innermost one of n is the last.
fn put_thread(out: &mut Output, s: &[u16], t: usize)
    requires { HasRoom 243 out.old × (8192 ≤ length s.now) × (t < 16) }
    ensures { Writes 243 s.now out.old out.new Any (λ S. thread_line t (thread_at S t)) }
{
    out.put_text(b"(thread");
    out.put_number(t);
    let n = table::frame_count(s, t);
    if n == 0 {
        out.put_text(b" finished)\n");
        return;
    }
    put_sender(out, s, t);
    put_frame(out, s, t, (n - 1) as usize % 16);
    out.put_text(b")\n");
}

fn put_threads(out: &mut Output, s: &[u16])
    requires { HasRoom 3888 out.old × (8192 ≤ length s.now) }
    ensures { Writes 3888 s.now out.old out.new Any (λ S. numbered thread_line 0 S.threads) }
{
    for t in 0..table::thread_count(s) as usize % 17 {
        put_thread(out, s, t);
    }
}

// ---- The whole state

pub fn put_state(out: &mut Output, s: &[u16])
    requires { HasRoom 26368 out.old × (8192 ≤ length s.now) }
    ensures { Writes 26368 s.now out.old out.new Any state_lines }
{
    put_objects(out, s);
    put_channels(out, s);
    put_threads(out, s);
}
