// What came of the turns of each thread: a line for each that has one.
ghost use Rattle.std.specs.Prelude.{◌≡◌, ◌≤◌, ◌<◌};
ghost use Rattle.buffer.specs.Outputs.{HasRoom, Wrote};
ghost use Rattle.sheet.specs.SheetText.{fates_text, halted_text, played_text, row_name, row_text, rows_text, turns_in};

use buffer::Output;

// How many turns a row counts.
fn turns_in(counts: &[u16; 85], i: usize) -> usize
    requires { i ≤ 80 }
    ensures { result ≡ turns_in counts.now i }
{
    counts[i] as usize
        + counts[i + 1] as usize
        + counts[i + 2] as usize
        + counts[i + 3] as usize
        + counts[i + 4] as usize
}

fn put_played(out: &mut Output, moved: u16, waited: u16, idle: u16)
    requires { HasRoom 40 out.old }
    ensures { Wrote 40 out.old out.new (played_text moved waited idle) }
{
    out.put_text(b":");
    out.put_number(moved as usize);
    out.put_text(b" moved,");
    out.put_number(waited as usize);
    out.put_text(b" waited,");
    out.put_number(idle as usize);
    out.put_text(b" idle,");
}

fn put_halted(out: &mut Output, stopped: u16, unplayed: u16)
    requires { HasRoom 33 out.old }
    ensures { Wrote 33 out.old out.new (halted_text stopped unplayed) }
{
    out.put_number(stopped as usize);
    out.put_text(b" stopped,");
    out.put_number(unplayed as usize);
    out.put_text(b" not played\n");
}

fn put_fates(out: &mut Output, counts: &[u16; 85], i: usize)
    requires { HasRoom 73 out.old × (i ≤ 80) }
    ensures { Wrote 73 out.old out.new (fates_text counts.now i) }
{
    put_played(out, counts[i], counts[i + 1], counts[i + 2]);
    put_halted(out, counts[i + 3], counts[i + 4]);
}

fn put_row_name(out: &mut Output, t: usize)
    requires { HasRoom 20 out.old }
    ensures { Wrote 20 out.old out.new (row_name t) }
{
    if t < 16 {
        out.put_text(b"       thread");
        out.put_number(t);
    } else {
        out.put_text(b"       no thread");
    }
}

fn put_row(out: &mut Output, counts: &[u16; 85], t: usize)
    requires { HasRoom 93 out.old × (t < 17) }
    ensures { Wrote 93 out.old out.new (row_text counts.now t) }
{
    let i = t * 5;
    if turns_in(counts, i) == 0 {
        return;
    }
    put_row_name(out, t);
    put_fates(out, counts, i);
}

pub fn put_rows(out: &mut Output, counts: &[u16; 85])
    requires { HasRoom 1581 out.old }
    ensures { Wrote 1581 out.old out.new (rows_text counts.now 17) }
{
    for t in 0..17 {
        put_row(out, counts, t);
    }
}
