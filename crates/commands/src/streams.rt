// Reading a buffer full, and writing a text whole, with what is known after an error.
ghost use Rattle.std.specs.Prelude.{◌≡◌, length};
ghost use Rattle.std.specs.Io.{ReadsAtMost};
ghost use Rattle.commands.specs.Streams.{Fills, Writes};

use std::io;
use std::io::{Error, ErrorKind, Read, Write};

fn is_interrupted(e: &Error) -> bool {
    e.kind() == ErrorKind::Interrupted
}

pub(crate) fn gave_up() -> Error {
    Error::from(ErrorKind::TimedOut)
}

// Reads until the buffer is full or the input ends, and answers how many bytes came.
pub(crate) fn fill<R: Read>(input: &mut R, buf: &mut [u8]) -> io::Result<usize>
    ensures bound { ReadsAtMost result buf.new }
    ensures len { length buf.new ≡ length buf.old }
    ensures bytes { Fills (R.remaining input.old) (R.remaining input.new) result buf.new }
{
    let mut at = 0;
    for _ in 0..u64::MAX {
        if at >= buf.len() {
            return Ok(at);
        }
        match input.read(&mut buf[at..]) {
            Ok(0) => return Ok(at),
            Ok(n) => at += n,
            Err(e) => {
                if !is_interrupted(&e) {
                    return Err(e);
                }
            }
        }
    }
    Err(gave_up())
}

// Writes the whole text, however few bytes a call takes.
#[cold]
#[inline(never)]
fn put_rest<W: Write>(out: &mut W, text: &[u8]) -> io::Result<()>
    ensures { Writes (W.contents out.old) (W.contents out.new) result text.now }
{
    let mut rest = text;
    for _ in 0..u64::MAX {
        if rest.is_empty() {
            return Ok(());
        }
        match out.write(rest) {
            Ok(0) => return Err(Error::from(ErrorKind::WriteZero)),
            Ok(n) => rest = &rest[n..],
            Err(e) => {
                if !is_interrupted(&e) {
                    return Err(e);
                }
            }
        }
    }
    Err(gave_up())
}

// Writes the whole text. A writer with a buffer takes it in one call, and then there is no loop: a line's size is known here.
#[inline(always)]
pub(crate) fn put<W: Write>(out: &mut W, text: &[u8]) -> io::Result<()>
    ensures { Writes (W.contents out.old) (W.contents out.new) result text.now }
{
    if text.is_empty() {
        return Ok(());
    }
    match out.write(text) {
        Ok(n) if n == text.len() => Ok(()),
        Ok(0) => Err(Error::from(ErrorKind::WriteZero)),
        Ok(n) => put_rest(out, &text[n..]),
        Err(e) => {
            if is_interrupted(&e) {
                put_rest(out, text)
            } else {
                Err(e)
            }
        }
    }
}
