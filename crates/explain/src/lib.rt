// What a number means, in plain words, for box explain.
#![tactic(auto)]

ghost use Rattle.std.specs.Prelude.{◌≡◌, ◌-◌, ◌≤◌, length, take, drop};
ghost use Rattle.rules.specs.Text.{lines, join};
ghost use Rattle.buffer.specs.Outputs.{HasRoom, Wrote};
ghost use Rattle.listing.specs.Outputs.{printed_of, output_after};
ghost use Rattle.explain.specs.Pages.{page};

use buffer::Output;
use rules::{Fault, Refusal};

// A page of five lines for each number: its word, what it means, what to do.
const PAGES: [u8; 5990] = *b"\
1 overlong\n\
Refused: too long. A script has at most 16,384 bytes and a list at most 32,768\n\
turns; an input, which is both together, has at most 65,536 bytes.\n\
What to do: shorten the script, as by one method for lines that come twice, or\n\
end the list earlier. Nothing was read, so the line that is told is 0.\n\
2 stray byte\n\
Refused: a byte that no script has. A script is written in a to z, 0 to 9, the\n\
two brackets, space and LF: no capitals, no tabs, no comments.\n\
What to do: look for such a byte in the line that is told. If it looks clean, it\n\
may end in CR and LF, as other systems save text; save it with LF alone.\n\
3 malformed\n\
Refused: a line that is no form, stands out of its place or lacks its LF; as the\n\
last line of an input, anything but a list of turns.\n\
What to do: lay the line beside the forms, space by space; a number has no zero\n\
before it. Kinds come first. A copy needs '(script 2)' as the first line.\n\
4 over count\n\
Refused: too many, or a number over 255. A script has 32 kinds, 64 blocks and\n\
512 lets, a block 16 slots, a kind 4 fields and 4 methods, a new 4 values.\n\
What to do: count up to the line that is told. Work that is too much for one\n\
block goes into a method or a thread of its own.\n\
5 unbound\n\
Refused: a slot is used that is not yet filled in its block. Each let fills the\n\
next one. At first a thread has slot 0, its channel; a method 0 and 1.\n\
What to do: number the slots from the block's first line, and use one that is\n\
filled by then, or move the line below the let that fills it.\n\
6 self taken\n\
Refused: a method takes slot 0. That is self, the object that was called, and\n\
it stays in its slot: it is read and never taken.\n\
What to do: write (read 0). A method on an iso object cannot hand it on; what\n\
the object holds comes out of it by a swap.\n\
7 unfinished\n\
Refused: there is no block, or the last one has no give. The line that is told\n\
is the number of lines, so that it names the place where one is missing.\n\
What to do: close the block with (give W). If it was closed when the script was\n\
written, the rest of the file is lost; fetch it again.\n\
8 dangling\n\
Refused: a line names what is not there: no such kind, no such block, a block of\n\
the other sort, or more or fewer values than the kind has fields.\n\
What to do: number kinds and blocks from 0 as they are written. Block 0 is a\n\
thread; spawn names a thread, and a kind's methods are method blocks.\n\
9 short table\n\
Refused: a host lent a table, a list or a buffer that is too short. The programs\n\
lend their own and never say this.\n\
What to do, for whoever wrote the host: a table has 8,192 words, the list of a\n\
report 256, and a script is written into 16,384 bytes; box.h has them in bytes.\n\
10 absent\n\
Stopped: a slot that is used holds nothing. A take emptied it before, or it\n\
never held a value, as slot 0 of the first thread.\n\
What to do: find the earlier take of that slot in the block that is told, and\n\
make it a read, or use the slot that has the value now.\n\
11 no field\n\
Stopped: the object has no field with that number. A kind with F fields has the\n\
fields 0 to F less one.\n\
What to do: see which object the slot holds in this run; it may be of another\n\
kind than the line has in mind. Else count the fields of its kind.\n\
12 no method\n\
Stopped: the kind of the object has no method with that number. Methods are\n\
numbered from 0 in the kind's own list, whatever their blocks are.\n\
What to do: see which object the slot holds in this run; it may be of another\n\
kind than the line has in mind. Else count its kind's list (does B ..).\n\
13 wrong thing\n\
Stopped: a channel where an object must be, or an object where a channel must\n\
be. Only send and recv work on channels; fields and messages are objects.\n\
What to do: see what the slot holds in this run. A send gives its channel back,\n\
not the message; a spawn gives a channel.\n\
14 permission\n\
Stopped: a capability forbids it. An imm object is never changed, no object\n\
holds one above its own (imm, iso, local, unsafe, rising), no local is sent.\n\
What to do: what is to change must not be imm; what is to be held or sent must\n\
be low enough: make it imm or iso, or send a copy of it.\n\
15 cast\n\
Stopped: the object has another capability than the cast names. A cast asks and\n\
never changes it.\n\
What to do: see where the object was made, by a new or a copy, and name its\n\
capability there or here. To have another, make a copy with it.\n\
16 used up\n\
Stopped: there is no room for more. A run has at most 256 objects, 16 threads\n\
and 16 frames of calls in each thread; a copy needs room for all that it makes.\n\
What to do: objects and threads are never given back, so make fewer, and let\n\
each do more. A frame is given back by its give: end a call before the next.\n\
17 no thread\n\
Not reported: the thread of a reach report was never started. The run itself was\n\
made.\n\
What to do: threads are numbered from 0 as they are spawned, whatever their\n\
blocks are. Ask for one that the printed run lists, or add turns to start it.\n\
18 no script\n\
Not written: no script reads to the table that was to be written back. Of box\n\
strip it says that the script is too long once every capability is unsafe.\n\
What to do: shorten the script. For whoever wrote a host: lend the table as\n\
box_read or box_run left it, every byte of it.\n\
19 alias\n\
Stopped: an iso object would be held twice. It is read, or it stands in a field\n\
that is read.\n\
What to do: take it, so that its slot is empty afterwards; get it out of a field\n\
by a swap. If several must hold it, make it imm, or copy it.\n\
20 foreign\n\
Stopped: something is local to another thread: what is worked on, what is to be\n\
held by a new object or a local, or what a copy meets.\n\
What to do: work on it in the thread that made it. What goes between threads is\n\
imm or iso; before it is sent, that thread can copy a local as imm.\n\
21 no object\n\
Not reported: the object whose holders were asked for was never made. The run\n\
itself was made.\n\
What to do: objects are numbered from 0 as they are made, copies too. Ask for\n\
one that the printed run lists, or add turns to make it.\n\
";

// Some lines of a text.
fn put_lines(out: &mut Output, text: &[u8], from: usize, to: usize)
    requires { HasRoom 32768 out.old × (from ≤ to) × (length text.now ≤ 32768) }
    ensures { Wrote 32768 out.old out.new (join (take (to - from) (drop from (lines text.now)))) }
{
    let start = reader::line_start(text, from);
    let end = reader::line_start(text, to);
    out.put_text(&text[start..end]);
}

// The page of a number.
fn put_page(out: &mut Output, n: usize)
    requires { HasRoom 32768 out.old × (n ≤ 21) }
    ensures { Wrote 32768 out.old out.new (page n) }
{
    if n == 0 {
        return;
    }
    put_lines(out, &PAGES, 5 * (n - 1), 5 * n);
}

// Prints what is said of a number, and nothing for one that is none of 1 to 21. An output under 32,768 bytes is refused with 9 and stays as it
// was.
pub fn print_explained(number: usize, output: &mut [u8]) -> Result<usize, Refusal>
    ensures value { result ≡ printed_of (page number) output.old }
    ensures output_after { output.new ≡ output_after (page number) output.old }
{
    if output.len() < 32768 {
        return Err(Fault::ShortTable.at(0));
    }
    if 21 < number {
        return Ok(0);
    }
    let mut out = Output::new(output);
    put_page(&mut out, number);
    Ok(out.at)
}
