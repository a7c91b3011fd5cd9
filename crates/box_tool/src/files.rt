// The input of a command: a file that an argument names, or standard input. A failure is told.
ghost use Rattle.streams.specs.Counted.{Within};

use std::env::FillError;
use std::io::{Error, Read};
use std::rt::Env;
use std::{fs, io, str};

// The system's numbers of a name that is too long, and of bytes that are no text.
const NAME_TOO_LONG: i32 = 36;

const NO_TEXT: i32 = 84;

// Tells on standard error what failed, and why.
fn tell(rt: &HostRuntime, what: &[u8], error: &Error) {
    let _ = rt.eprint("box: ");
    let _ = streams::tell(&mut rt.stderr(), what, *error);
}

fn read_from<R: Read>(
    rt: &HostRuntime,
    reader: &mut R,
    name: &[u8],
    buf: &mut [u8],
) -> io::Result<usize>
    ensures { Within buf.new result }
{
    streams::read_all(reader, buf).inspect_err(|error| tell(rt, name, error))
}

fn read_file(rt: &HostRuntime, path: &[u8], buf: &mut [u8]) -> io::Result<usize>
    ensures { Within buf.new result }
{
    let mut file = str::from_utf8(path)
        .map_err(|_| Error::from_raw_os_error(NO_TEXT))
        .and_then(|text| fs::open(rt, text))
        .inspect_err(|error| tell(rt, path, error))?;
    read_from(rt, &mut file, path, buf)
}

// Argument i, where there is one and it is not '-'; else standard input.
pub fn read_input(rt: &HostRuntime, i: usize, buf: &mut [u8]) -> io::Result<usize>
    ensures { Within buf.new result }
{
    let mut path = [0u8; 4096];
    match rt.arg(i, &mut path) {
        Ok(n) if &path[..n] != b"-".as_slice() => read_file(rt, &path[..n], buf),
        Ok(_) | Err(FillError::NotPresent) => read_from(
            rt,
            &mut rt.stdin(),
            b"standard input",
            buf,
        ),
        Err(FillError::TooLong) => {
            let error = Error::from_raw_os_error(NAME_TOO_LONG);
            tell(rt, b"the name of the input", &error);
            Err(error)
        }
    }
}
