// What a C host calls: "numbers and byte slices; words cross as bytes, low byte first". include/box.h says it for C.
#![tactic(auto)]

ghost use Rattle.std.specs.Prelude.{◌≡◌, ◌*◌, ◌≤◌, length, take};
ghost use Rattle.rules.specs.Mosts as Most;
ghost use Rattle.rules.specs.Lists.{pad};
ghost use Rattle.rules.specs.Text.{lines, find_line, start_of};
ghost use Rattle.table.specs.ProgramTable.{fresh_table};
ghost use Rattle.host.specs.Bytes.{bytes_after, words_of};
ghost use Rattle.host.specs.ByteCalls.{ReadsBytes, MakesBytes, TellsAnswer, CountInNumbers, RunsBytes, ListsBytes, ReachesBytes, AsksBytes, CountsBytes, PicturesBytes, DrawsBytes, FindsBytes, TellsFound, RacesBytes, WritesBytes};
ghost use Rattle.host.specs.Version.{version};

use races::Race;
use rules::{Fault, Refusal};
use run::Outcome;

const TABLE: usize = 16384; // bytes of a table

const LIST: usize = 512; // bytes of the reach list

const DRAWING: usize = 65536; // bytes of the buffer for a drawing

const RACE_TURNS: usize = 1024; // the most turns among which races are looked for

const MAJOR: u32 = 1;

const MINOR: u32 = 8; // requests of document 02 that have landed

const PATCH: u32 = 0;

// The words over the first bytes of t.
fn store(t: &mut [u8], words: &[u16])
    requires { 2 * length words.now ≤ length t.old }
    ensures { t.new ≡ bytes_after (length words.now) words.now t.old }
{
    for (i, word) in words.iter().enumerate() {
        let [low, high] = word.to_le_bytes();
        t[2 * i] = low;
        t[2 * i + 1] = high;
    }
}

// The first n words over the first bytes of a table, and zeros behind them.
fn store_used(t: &mut [u8], words: &[u16], n: usize)
    requires { (n ≤ length words.now) × (n ≤ 8192) × (16384 ≤ length t.old) }
    ensures { t.new ≡ bytes_after Most.words (pad Most.words 0 (take n words.now)) t.old }
{
    store(t, &words[..n]);
    t[2 * n..TABLE].fill(0);
}

// The first bytes as words.
fn load(words: &mut [u16], bytes: &[u8])
    requires { 2 * length words.old ≤ length bytes.now }
    ensures { words.new ≡ take (length words.old) (words_of bytes.now) }
{
    for (i, word) in words.iter_mut().enumerate() {
        *word = u16::from_le_bytes([bytes[2 * i], bytes[2 * i + 1]]);
    }
}

// The one way in on bytes: makes the run in two fresh tables and stores both. A refusal stores nothing; another slice of the call may be short.
fn make(
    text: &[u8],
    turns: &[u8],
    short: bool,
    program: &mut [u8],
    state: &mut [u8],
    p: &mut [u16],
    s: &mut [u16],
) -> Result<Outcome, Refusal>
    requires { (p.old ≡ fresh_table) × (s.old ≡ fresh_table) }
    ensures { MakesBytes text.now turns.now program.old state.old short result p.new s.new program.new state.new }
{
    let any = (program.len() < TABLE) | ((state.len() < TABLE) | short);
    let outcome = run::make(text, turns, any, p, s)?;
    store_used(program, p, table::used_words(p));
    store(state, s);
    Ok(outcome)
}

// An answer in numbers, which are lent one by one as the C interface has them: which end it is (0 finished, 1 stuck, 2 open, 3 stopped, 4 refused),
// and its numbers, 0 where there is none.
fn tell(
    answer: Result<Outcome, Refusal>,
    number: &mut usize,
    thread: &mut usize,
    block: &mut usize,
    line: &mut usize,
    moves: &mut usize,
) -> u16
    ensures { TellsAnswer answer result number.new thread.new block.new line.new moves.new }
{
    *number = 0;
    *thread = 0;
    *block = 0;
    *line = 0;
    *moves = 0;
    match answer {
        Ok(Outcome::Finished(m)) => {
            *moves = m as usize;
            0
        }
        Ok(Outcome::Stuck(m)) => {
            *moves = m as usize;
            1
        }
        Ok(Outcome::Open(m)) => {
            *moves = m as usize;
            2
        }
        Ok(Outcome::Stopped(stop)) => {
            *number = stop.fault.number() as usize;
            *thread = stop.thread as usize;
            *block = stop.block as usize;
            *line = stop.line as usize;
            *moves = stop.moves as usize;
            3
        }
        Err(refusal) => {
            *number = refusal.fault.number() as usize;
            *line = refusal.line; // of a run
            4
        }
    }
}

// A count in numbers: 0 and the count, or the refusal's number and its line.
fn tell_count(told: Result<usize, Refusal>, count: &mut usize, line: &mut usize) -> u16
    ensures { CountInNumbers told result count.new line.new }
{
    match told {
        Ok(n) => {
            *count = n;
            *line = 0;
            0
        }
        Err(refusal) => {
            *count = 0;
            *line = refusal.line;
            refusal.fault.number()
        }
    }
}

// Reads a script into a program table: 0, or the refusal's number and its line. A refusal changes no byte.
#[unsafe(no_mangle)]
pub extern "C" fn box_read(text: &[u8], program: &mut [u8], line: &mut usize) -> u16
    ensures { ReadsBytes text.now program.old result line.new program.new }
{
    *line = 0;
    let mut words = [0u16; 8192];
    match reader::make(text, program.len() < TABLE, &mut words) {
        Ok(()) => {
            store_used(program, &words, table::used_words(&words));
            0
        }
        Err(refusal) => {
            *line = refusal.line; // of a script
            refusal.fault.number() // of the refusal
        }
    }
}

// Runs a script on a list of turns: which end it is (0 finished, 1 stuck, 2 open, 3 stopped, 4 refused) and its numbers, 0 where there is
// none. A refusal changes no byte of the tables.
#[unsafe(no_mangle)]
pub extern "C" fn box_run(
    text: &[u8],
    turns: &[u8],
    program: &mut [u8],
    state: &mut [u8],
    number: &mut usize,
    thread: &mut usize,
    block: &mut usize,
    line: &mut usize,
    moves: &mut usize,
) -> u16
    ensures { RunsBytes text.now turns.now program.old state.old result number.new thread.new block.new line.new moves.new program.new state.new }
{
    let mut p = [0u16; 8192];
    let mut s = [0u16; 8192];
    let answer = make(text, turns, false, program, state, &mut p, &mut s);
    tell(answer, number, thread, block, line, moves)
}

// Makes and stores a run, and lists the objects that a thread reaches: how many there are. (This and the next two are four lines each, joined by `?`:
// over a closure, each would say its two tables, its slices and its answer again.)
fn list_reached(
    text: &[u8],
    turns: &[u8],
    program: &mut [u8],
    state: &mut [u8],
    thread: usize,
    list: &mut [u8],
) -> Result<usize, Refusal>
    ensures { ListsBytes text.now turns.now program.old state.old thread list.old result program.new state.new list.new }
{
    let mut p = [0u16; 8192];
    let mut s = [0u16; 8192];
    make(
        text,
        turns,
        list.len() < LIST,
        program,
        state,
        &mut p,
        &mut s,
    )?;
    let mut objects = [0u16; 256];
    let reached = reach::report_on(&p, &s, thread, &mut objects)?;
    store(list, &objects);
    Ok(reached)
}

// Runs, then lists the objects that a thread reaches, in rising order: 0 and their count, or the refusal's number and its line. A refusal by 1
// to 9 changes no byte of the tables and the list; 17 leaves the run in the tables and the list as it was.
#[unsafe(no_mangle)]
pub extern "C" fn box_reach(
    text: &[u8],
    turns: &[u8],
    program: &mut [u8],
    state: &mut [u8],
    thread: usize,
    list: &mut [u8],
    count: &mut usize,
    line: &mut usize,
) -> u16
    ensures { ReachesBytes text.now turns.now program.old state.old thread list.old result count.new line.new program.new state.new list.new }
{
    let reached = list_reached(text, turns, program, state, thread, list);
    tell_count(reached, count, line)
}

// Makes and stores a run, and tells how many places hold an object.
fn count_places(
    text: &[u8],
    turns: &[u8],
    program: &mut [u8],
    state: &mut [u8],
    object: usize,
) -> Result<usize, Refusal>
    ensures { AsksBytes text.now turns.now program.old state.old object result program.new state.new }
{
    let mut p = [0u16; 8192];
    let mut s = [0u16; 8192];
    make(text, turns, false, program, state, &mut p, &mut s)?;
    let places = holders::count_on(&s, object)?;
    Ok(places as usize)
}

// Runs, then tells how many places hold an object, as its record has it: 0 and the count, or the refusal's number and its line. A refusal by 1
// to 9 changes no byte of the tables; 21 leaves the run in them.
#[unsafe(no_mangle)]
pub extern "C" fn box_holders(
    text: &[u8],
    turns: &[u8],
    program: &mut [u8],
    state: &mut [u8],
    object: usize,
    count: &mut usize,
    line: &mut usize,
) -> u16
    ensures { CountsBytes text.now turns.now program.old state.old object result count.new line.new program.new state.new }
{
    let places = count_places(text, turns, program, state, object);
    tell_count(places, count, line)
}

// Makes and stores a run, and draws its objects: how many bytes are written.
fn draw(
    text: &[u8],
    turns: &[u8],
    program: &mut [u8],
    state: &mut [u8],
    graph: &mut [u8],
) -> Result<usize, Refusal>
    ensures { PicturesBytes text.now turns.now program.old state.old graph.old result program.new state.new graph.new }
{
    let mut p = [0u16; 8192];
    let mut s = [0u16; 8192];
    make(
        text,
        turns,
        graph.len() < DRAWING,
        program,
        state,
        &mut p,
        &mut s,
    )?;
    drawing::draw_on(&s, graph)
}

// Runs, then draws the objects as a directed graph in the DOT language: 0 and how many bytes are written, or the refusal's number and its line. A
// refusal changes no byte; the buffer's bytes past the text stay.
#[unsafe(no_mangle)]
pub extern "C" fn box_draw(
    text: &[u8],
    turns: &[u8],
    program: &mut [u8],
    state: &mut [u8],
    graph: &mut [u8],
    written: &mut usize,
    line: &mut usize,
) -> u16
    ensures { DrawsBytes text.now turns.now program.old state.old graph.old result written.new line.new program.new state.new graph.new }
{
    let drawn = draw(text, turns, program, state, graph);
    tell_count(drawn, written, line)
}

// Makes and stores a run of at most 1,024 turns, and looks for two that race. A refusal stores nothing.
fn find_race(
    text: &[u8],
    turns: &[u8],
    program: &mut [u8],
    state: &mut [u8],
) -> Result<Option<Race>, Refusal>
    ensures { FindsBytes text.now turns.now program.old state.old result program.new state.new }
{
    if RACE_TURNS < turns.len() {
        return Err(Fault::Overlong.at(0)); // before any 9
    }
    let mut p = [0u16; 8192];
    let mut s = [0u16; 8192];
    make(text, turns, false, program, state, &mut p, &mut s)?;
    races::judge(&p, turns)
}

// What was found, in numbers: that of the refusal, or 0; 1 where there is a race, and which, else 0.
fn tell_race(
    found: Result<Option<Race>, Refusal>,
    race: &mut usize,
    first: &mut usize,
    second: &mut usize,
    object: &mut usize,
    field: &mut usize,
    line: &mut usize,
) -> u16
    ensures { TellsFound found result race.new first.new second.new object.new field.new line.new }
{
    *race = 0;
    *first = 0;
    *second = 0;
    *object = 0;
    *field = 0;
    *line = 0;
    match found {
        Err(refusal) => {
            *line = refusal.line; // of turns
            refusal.fault.number()
        }
        Ok(None) => 0,
        Ok(Some(there)) => {
            *race = 1;
            *first = there.first;
            *second = there.second;
            *object = there.object as usize;
            *field = there.field as usize;
            0
        }
    }
}

// Runs at most 1,024 turns, and tells whether two of them race: 0, and 1 or 0 for it, with the places of both turns in the list, the object and the
// field; or the refusal's number and its line. A refusal changes no byte.
#[unsafe(no_mangle)]
pub extern "C" fn box_race(
    text: &[u8],
    turns: &[u8],
    program: &mut [u8],
    state: &mut [u8],
    race: &mut usize,
    first: &mut usize,
    second: &mut usize,
    object: &mut usize,
    field: &mut usize,
    line: &mut usize,
) -> u16
    ensures { RacesBytes text.now turns.now program.old state.old result race.new first.new second.new object.new field.new line.new program.new state.new }
{
    let found = find_race(text, turns, program, state);
    tell_race(found, race, first, second, object, field, line)
}

// Where line n of a text starts, and its length without its LF; past the last line, the end and 0.
#[unsafe(no_mangle)]
pub extern "C" fn box_line(text: &[u8], n: usize, start: &mut usize) -> usize
    ensures value { result ≡ length (find_line n text.now) }
    ensures start_after { start.new ≡ start_of n (lines text.now) }
{
    *start = reader::line_start(text, n);
    let line = reader::find_line(text, n);
    line.len()
}

// Writes the script that a program table holds: 0 and how many bytes, or the refusal's number and 0. A refusal changes no byte.
#[unsafe(no_mangle)]
pub extern "C" fn box_write(program: &[u8], script: &mut [u8], length: &mut usize) -> u16
    ensures { WritesBytes program.now script.old result length.new script.new }
{
    *length = 0;
    if program.len() < TABLE {
        return Fault::ShortTable.number(); // before any 18
    }
    let mut words = [0u16; 8192];
    load(&mut words, program);
    match writer::write(&words, script) {
        Ok(n) => {
            *length = n;
            0
        }
        Err(fault) => fault.number(),
    }
}

// The version of the library in one number, for a host to compare with its header's.
#[unsafe(no_mangle)]
pub extern "C" fn box_version() -> u32
    ensures { result ≡ version }
{
    10000 * MAJOR + 100 * MINOR + PATCH
}
