// box: what can be asked of an input of boxrun, or of a number, as one program. What it prints is the libraries'. The wrapper scripts/box runs
// it with --status as the first argument, and exits with the digit that it then writes on descriptor 3.
#![tactic(auto)]

mod commands;
mod files;
mod words;

ghost use Rattle.std.specs.Prelude.{◌≡◌, ◌≤◌, length};
ghost use Rattle.stripping.specs.StrippedTexts.{Prints};
ghost use Rattle.sheet.specs.SheetText.{holds_of};
ghost use Rattle.box_tool.specs.Status.{digit, status_of, status_of_sheet, Unless};
ghost use Rattle.box_tool.specs.Jobs.{IsText, Finishes};

use commands::{Command, Job, command_of, takes};
use files::read_input;
use rules::Refusal;
use std::env::FillError;
use std::fs::OpenOptions;
use std::rt::Env;
use words::number_of;

// How a command ended.
#[derive(Clone, Copy, PartialEq, Eq, Debug)]
pub enum Status {
    Well,
    Refused, // or a failed tick; or no such number
    Fault, // an error of the system, or of usage
}

impl Status {
    // The digit that is written on descriptor 3.
    pub fn digit(self) -> u8
        ensures { result ≡ digit self }
    {
        match self {
            Status::Well => b'0',
            Status::Refused => b'1',
            Status::Fault => b'2',
        }
    }
}

const USAGE: &[u8] = b"\
usage: one of\n\
box check [FILE]        print the check sheet of an input: the four conditions\n\
box run [FILE]          print the run of an input: a script, then its turns\n\
box save [FILE]         print the input again, its script from the program table\n\
box strip [FILE]        print the input with every capability unsafe\n\
box draw [FILE]         print the objects after the run as a graph for Graphviz\n\
box reach FILE THREAD   print the objects that a thread reaches after the run\n\
box explain NUMBER      print what the number of a refusal or a stop means\n\
box --version           print the version\n\
box --help              print this\n\
FILE is an input as boxrun reads it; with none, or -, it is standard input.\n\
";

// The status of what was printed.
fn status_of(text: &[u8]) -> Status
    ensures { result ≡ status_of text.now }
{
    if text.starts_with(b"(refused") {
        Status::Refused
    } else {
        Status::Well
    }
}

// Writes a text, and answers the status that it has where that does not fail.
fn write_out(rt: &HostRuntime, text: &[u8], status: Status) -> Status
    ensures { Unless result status }
{
    match streams::write_all(&mut rt.stdout(), text) {
        Ok(()) => status,
        Err(error) => {
            let _ = streams::tell(&mut rt.stderr(), b"box: standard output", error);
            Status::Fault
        }
    }
}

// Prints what is asked of an input. (A match and no closure: the contract says by the job which text it is.)
fn print(job: Job, input: &[u8], output: &mut [u8]) -> Result<usize, Refusal>
    requires { 65536 ≤ length output.old }
    ensures { Prints (IsText job input.now) output.old result output.new }
{
    match job {
        Job::Run => replay::print_input(input, output),
        Job::Save => save::print_saved(input, output),
        Job::Strip => stripping::print_stripped(input, output),
        Job::Draw => reports::print_drawn(input, output),
        Job::Reached(thread) => reports::print_reached(input, thread, output),
    }
}

// Prints it, writes it and answers the status.
fn finish(rt: &HostRuntime, job: Job, input: &[u8]) -> Status
    ensures { Finishes job input.now result }
{
    let mut output = [0u8; 65536];
    match print(job, input, &mut output) {
        Ok(n) => {
            let text = &output[..n];
            write_out(rt, text, status_of(text))
        }
        Err(_) => Status::Fault, // the output is long enough
    }
}

fn status_of_sheet(holds: bool) -> Status
    ensures { result ≡ status_of_sheet holds }
{
    if holds { Status::Well } else { Status::Refused }
}

// Prints the check sheet, writes it and answers the status.
fn finish_check(rt: &HostRuntime, input: &[u8]) -> Status
    ensures { Unless result (status_of_sheet (holds_of input.now)) }
{
    let mut output = [0u8; 32768];
    match sheet::print_sheet(input, &mut output) {
        Ok(sheet) => write_out(rt, &output[..sheet.length], status_of_sheet(sheet.holds)),
        Err(_) => Status::Fault, // the output is long enough
    }
}

// What is made of the input that argument i names.
fn on_input<F: FnOnce(&[u8]) -> Status>(rt: &HostRuntime, i: usize, finish: F) -> Status
    requires { F.IsAlwaysCallable finish }
{
    let mut input = [0u8; 65537]; // one byte more than an input may have
    match read_input(rt, i, &mut input) {
        Ok(n) => finish(&input[..n]),
        Err(_) => Status::Fault,
    }
}

fn perform_job(rt: &HostRuntime, i: usize, job: Job) -> Status {
    on_input(rt, i, |input| finish(rt, job, input))
}

// The number that argument i is.
fn number_argument(rt: &HostRuntime, i: usize) -> Option<usize> {
    let mut word = [0u8; 16];
    number_of(argument(rt, i, &mut word))
}

// What the thread reaches that argument i + 1 names, on the input that argument i names.
fn reach(rt: &HostRuntime, i: usize) -> Status
    requires { i ≤ 3 }
{
    match number_argument(rt, i + 1) {
        Some(thread) => perform_job(rt, i, Job::Reached(thread)),
        None => usage(rt),
    }
}

// What a number means, if it is one of a refusal or a stop.
fn explain_number(rt: &HostRuntime, number: usize) -> Status {
    let mut output = [0u8; 32768];
    match explain::print_explained(number, &mut output) {
        Ok(0) => {
            let _ = rt.eprintln("box: explain: there are the numbers 1 to 21");
            Status::Refused
        }
        Ok(n) => write_out(rt, &output[..n], Status::Well),
        Err(_) => Status::Fault, // the output is long enough
    }
}

fn usage(rt: &HostRuntime) -> Status {
    let _ = rt.stderr().write_all(USAGE);
    Status::Fault
}

// Does what argument i commands, and answers the status.
fn perform(rt: &HostRuntime, i: usize) -> Status
    requires { i ≤ 2 }
{
    let mut word = [0u8; 16];
    let command = command_of(argument(rt, i, &mut word));
    if !takes(command, words_after(rt, i)) {
        return usage(rt);
    }
    match command {
        Command::Print(job) => perform_job(rt, i + 1, job),
        Command::Check => on_input(rt, i + 1, |input| finish_check(rt, input)),
        Command::Reach => reach(rt, i + 1),
        Command::Explain => explain_number(rt, number_argument(rt, i + 1).unwrap_or(0)), // 0 is the number of nothing, as 22 is
        Command::Version => write_out(rt, b"box 1.8.0\n", Status::Well),
        Command::Help => write_out(rt, USAGE, Status::Well),
        Command::Unknown => usage(rt),
    }
}

// How many arguments there are after argument i.
fn words_after(rt: &HostRuntime, i: usize) -> usize {
    (i.saturating_add(1)..usize::MAX)
        .take_while(|k| has_argument(rt, *k))
        .count()
}

// Whether there is an argument i.
fn has_argument(rt: &HostRuntime, i: usize) -> bool {
    !matches!(rt.arg(i, &mut [0; 16]), Err(FillError::NotPresent))
}

// Argument i, at the front of a word that is lent for it; nothing where it is missing, or longer than the word.
fn argument<'a>(rt: &HostRuntime, i: usize, word: &'a mut [u8]) -> &'a [u8]
    ensures { length result.now ≤ length word.old }
{
    match rt.arg(i, word) {
        Ok(n) => &word[..n],
        Err(_) => &[],
    }
}

// Writes a status on descriptor 3, where that is open.
fn tell_status(rt: &HostRuntime, status: Status) {
    let opened = OpenOptions::new().append(true).open(rt, "/dev/fd/3");
    if let Ok(mut to) = opened {
        let _ = streams::write_all(&mut to, &[status.digit()]);
    }
}

fn main(rt: HostRuntime) {
    let mut word = [0u8; 16];
    if argument(&rt, 1, &mut word) == b"--status".as_slice() {
        let status = perform(&rt, 2);
        tell_status(&rt, status);
    } else {
        perform(&rt, 1);
    }
}
