// What is printed of an input of boxrun by a job on its parts: the frame that reports, the stripped script and the script written back share.
#![tactic(auto)]

ghost use Rattle.std.specs.Prelude.{length};
ghost use Rattle.printing.specs.Printing.{TakesParts, DoesJob, PrintsParts};

use rules::{Fault, Refusal};

// Takes an input apart and lets a job write what it makes of the parts: the script's text, the turns and the last line.
fn do_job<F: FnOnce(&[u8], &[u8], &[u8], &mut [u8]) -> Result<usize, Refusal>>(
    input: &[u8],
    output: &mut [u8],
    job: F,
) -> Result<usize, Refusal>
    requires { TakesParts (F.pre job) input.now (length output.old) }
    ensures { DoesJob (F.post job) input.now output.old result output.new }
{
    let mut turns = [0u8; 32768];
    let parts = replay::split(input, &mut turns)?;
    job(
        &input[..parts.script],
        &turns[..parts.turns],
        &input[parts.script..],
        output,
    )
}

// The same; a refusal, that of the input or the one that the job answers, is printed. An output that has not the room is refused with 9 and stays as
// it was. (Three slices are lent to a job: a closure names them.)
pub fn print_parts<F: FnOnce(&[u8], &[u8], &[u8], &mut [u8]) -> Result<usize, Refusal>>(
    input: &[u8],
    room: usize,
    output: &mut [u8],
    job: F,
) -> Result<usize, Refusal>
    requires { TakesParts (F.pre job) input.now room }
    ensures { PrintsParts (F.post job) input.now room output.old result output.new }
{
    if output.len() < room {
        return Err(Fault::ShortTable.at(0));
    }
    match do_job(input, output, job) {
        Ok(n) => Ok(n),
        Err(refusal) => listing::print_refusal(refusal.fault.number(), refusal.line, output),
    }
}
