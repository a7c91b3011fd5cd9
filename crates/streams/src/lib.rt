// All of an input read into a lent buffer, and all of a text, written. A call that fails is told, with the system's reason; one that a signal
// interrupted is made again.
#![tactic(auto)]

ghost use Rattle.std.specs.Prelude.{OnOk};
ghost use Rattle.std.specs.Io.KnownBytes.{Appends};
ghost use Rattle.streams.specs.Counted.{Within};
ghost use Rattle.streams.specs.Told.{Tells};

use std::io::{Cursor, Error, ErrorKind, Read, Write};
use std::{io, str};

// How often in one reading, or writing, an interrupted call is made again: a proved loop has to end.
const PATIENCE: usize = 1000000;

// The system's number of a call that a signal interrupted.
const INTERRUPTED: i32 = 4;

fn is_interrupted(error: &Error) -> bool {
    error.kind() == ErrorKind::Interrupted
}

// Reads until the input ends or the buffer is full, and answers how many bytes stand at its front. Where a read fails, what the buffer holds is of
// no matter.
pub fn read_all<R: Read>(reader: &mut R, buf: &mut [u8]) -> io::Result<usize>
    ensures { Within buf.new result }
{
    let mut done = 0;
    let mut patience = PATIENCE;
    // a call moves any number of bytes, which no `for` can count
    while done < buf.len() {
        match reader.read(&mut buf[done..]) {
            Ok(0) => break,
            Ok(n) => done += n,
            Err(error) if is_interrupted(&error) && 0 < patience => patience -= 1,
            Err(error) if is_interrupted(&error) => return Err(Error::from_raw_os_error(
                INTERRUPTED,
            )),
            Err(error) => return Err(error),
        }
    }
    Ok(done)
}

// Writes all of a text; or fails, after some of it, or none, was written. A write that takes nothing is as good as interrupted.
pub fn write_all<W: Write>(writer: &mut W, text: &[u8]) -> io::Result<()>
    ensures { OnOk result (Appends (W.contents writer.old) (W.contents writer.new) text.now) }
{
    let mut rest = text;
    let mut tries = PATIENCE;
    // as in reading: a call takes any number of bytes
    while !rest.is_empty() {
        match writer.write(rest) {
            Ok(0) if 0 < tries => tries -= 1,
            Ok(0) => return Err(Error::from_raw_os_error(INTERRUPTED)),
            Ok(n) => rest = &rest[n..],
            Err(error) if is_interrupted(&error) && 0 < tries => tries -= 1,
            Err(error) if is_interrupted(&error) => return Err(Error::from_raw_os_error(
                INTERRUPTED,
            )),
            Err(error) => return Err(error),
        }
    }
    Ok(())
}

// Tells on a stream what failed, as the caller names it, and why, by the system's own words: a line.
pub fn tell<W: Write>(to: &mut W, what: &[u8], error: Error) -> io::Result<()>
    ensures { OnOk result (Tells (W.contents to.old) (W.contents to.new) what.now) }
{
    let mut text = Cursor::new([0u8; 320]); // longer than all that an error says
    let _ = write!(text, "{error}");
    let text = text.into_inner();
    let reason = reason(&text);
    to.write_all(what)?;
    to.write_all(b": ")?;
    to.write_all(reason.as_bytes())?;
    to.write_all(b"\n")?;
    Ok(())
}

// What an error says, which stands at the front of zeros, without the system's number of it.
fn reason(text: &[u8]) -> &str {
    let Ok(text) = str::from_utf8(text) else {
        return "";
    };
    if let Some((words, _)) = text.split_once(" (os error ") {
        return words;
    }
    match text.split_once('\0') {
        Some((words, _)) => words,
        None => text,
    }
}
