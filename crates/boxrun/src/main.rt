// boxrun: a script and its turns on standard input, the printed run on standard output. What is printed is `replay::print_input`'s. A read or
// a write that fails is told on standard error, and of what could not be read whole nothing is printed.
#![tactic(auto)]

// The printed run of an input that was read whole.
fn print(rt: &HostRuntime, input: &[u8]) {
    let mut output = [0u8; 32768];
    // the output is long enough
    if let Ok(n) = replay::print_input(input, &mut output) {
        if let Err(error) = streams::write_all(&mut rt.stdout(), &output[..n]) {
            let _ = streams::tell(&mut rt.stderr(), b"boxrun: standard output", error);
        }
    }
}

fn main(rt: HostRuntime) {
    let mut input = [0u8; 65537]; // one byte more than an input may have
    match streams::read_all(&mut rt.stdin(), &mut input) {
        Ok(n) => print(&rt, &input[..n]),
        Err(error) => {
            let _ = streams::tell(&mut rt.stderr(), b"boxrun: standard input", error);
        }
    }
}
