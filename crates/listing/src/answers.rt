// The line of what the run answers.
ghost use Rattle.std.specs.Prelude.{◌≡◌, ◌++◌, ◌≤◌, length};
ghost use Rattle.rules.specs.Text.{bytes};
ghost use Rattle.rules.specs.Run.{refused, halted};
ghost use Rattle.rules.specs.Listing.{answer_line};
ghost use Rattle.buffer.specs.Outputs.{HasRoom, Wrote};
ghost use Rattle.buffer.specs.Writing.{number_part};
ghost use Rattle.run.specs.RunAnswers.{told};
ghost use Rattle.listing.specs.Outputs.{in_numbers, answer_text};

use buffer::Output;
use rules::Refusal;
use run::Outcome;

// What a run answers, in numbers: of refusals and stops any number can be told, also one that no fault has.
#[derive(Clone, Copy, Debug, PartialEq, Eq)]
pub enum Answer {
    Refused(u16, usize),
    Finished(u16),
    Stuck(u16),
    Open(u16),
    Stopped(u16, u16, u16, u16, u16),
}

impl From<Result<Outcome, Refusal>> for Answer {
    ghost from_gives = { λ r a. in_numbers a ≡ told r };

    fn from(answer: Result<Outcome, Refusal>) -> Answer {
        match answer {
            Err(refusal) => Answer::Refused(refusal.fault.number(), refusal.line),
            Ok(Outcome::Finished(moves)) => Answer::Finished(moves),
            Ok(Outcome::Stuck(moves)) => Answer::Stuck(moves),
            Ok(Outcome::Open(moves)) => Answer::Open(moves),
            Ok(Outcome::Stopped(stop)) => Answer::Stopped(
                stop.fault.number(),
                stop.thread,
                stop.block,
                stop.line,
                stop.moves,
            ),
        }
    }
}

pub fn put_refused(out: &mut Output, number: u16, line: usize)
    requires { HasRoom 22 out.old }
    ensures { Wrote 22 out.old out.new (answer_line (refused number line)) }
{
    out.put_text(b"(refused");
    out.put_number(number as usize);
    out.put_number(line);
    out.put_text(b")\n");
}

// The end's word comes with the space before it.
fn put_ended(out: &mut Output, word: &[u8], moves: u16)
    requires { HasRoom 21 out.old × (length word.now ≤ 9) }
    ensures { Wrote 21 out.old out.new (bytes "(end" ++ (word.now ++ (number_part moves ++ bytes ")\n"))) }
{
    out.put_text(b"(end");
    out.put_text(word);
    out.put_number(moves as usize);
    out.put_text(b")\n");
}

fn put_stopped(out: &mut Output, number: u16, thread: u16, block: u16, line: u16, moves: u16)
    requires { HasRoom 40 out.old }
    ensures { Wrote 40 out.old out.new (answer_line (halted number thread block line moves)) }
{
    out.put_text(b"(stopped");
    out.put_number(number as usize);
    out.put_number(thread as usize);
    out.put_number(block as usize);
    out.put_number(line as usize);
    out.put_number(moves as usize);
    out.put_text(b")\n");
}

pub fn put_answer(out: &mut Output, answer: Answer)
    requires { HasRoom 40 out.old }
    ensures { Wrote 40 out.old out.new (answer_text answer) }
{
    match answer {
        Answer::Refused(number, line) => put_refused(out, number, line),
        Answer::Finished(moves) => put_ended(out, b" finished", moves),
        Answer::Stuck(moves) => put_ended(out, b" stuck", moves),
        Answer::Open(moves) => put_ended(out, b" open", moves),
        Answer::Stopped(number, thread, block, line, moves) => {
            put_stopped(out, number, thread, block, line, moves)
        }
    }
}
