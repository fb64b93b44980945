// Reading to the end of the input and writing all of a text, over calls that may be interrupted or may find a stream not ready.
ghost use Rattle.std.specs.Prelude.{suc, ◌≤◌, ◌<◌, ◌≡◌, length, IfOk, IfErr, IfSome};
ghost use Rattle.mend.specs.Input.{IsPrefixLen, longest};

use crate::patience::Patience;
use std::io::{Read, Write};
use std::time::Clock;

// A read kept failing.
#[derive(Clone, Copy, Debug, PartialEq, Eq)]
pub struct ReadFailed;

// A write kept failing, or taking nothing: so many bytes were taken before.
#[derive(Clone, Copy, Debug, PartialEq, Eq)]
pub struct WriteFailed {
    pub taken: usize,
}

// Reads until buf is full or the input ends, and answers how many bytes it put at the start of buf. buf has one byte more than the
// longest file, so that a longer input shows.
pub fn read_whole<R: Read>(
    input: &mut R,
    clock: &impl Clock,
    buf: &mut [u8],
) -> Result<usize, ReadFailed>
    requires { length buf.old ≡ suc longest }
    ensures { IfOk result (λ size. IsPrefixLen size buf.new) }
{
    let mut size = 0;
    // where the input ends is not known before it is read
    while size < buf.len() {
        let more = read_some(input, clock, &mut buf[size..])?;
        if more == 0 {
            break;
        }
        size += more;
    }
    Ok(size)
}

// Writes all of text, or fails.
pub fn write_whole<W: Write>(
    output: &mut W,
    clock: &impl Clock,
    text: &[u8],
) -> Result<(), WriteFailed>
    ensures { IfErr result (λ failed. failed.taken ≤ length text.now) }
{
    let mut taken = 0;
    // how much a write takes is not known before
    while taken < text.len() {
        let Some(more) = write_some(output, clock, &text[taken..]) else {
            return Err(WriteFailed { taken });
        };
        taken += more;
    }
    Ok(())
}

// One read, made again while it fails and patience lasts. It comes to no bytes at the end of the input.
fn read_some<R: Read>(
    input: &mut R,
    clock: &impl Clock,
    buf: &mut [u8],
) -> Result<usize, ReadFailed>
    ensures { IfOk result (λ size. size ≤ length buf.old) }
{
    let mut patience = Patience::fresh();
    // no count: waiting takes from patience, and may take all of it
    while patience.tries > 0 {
        if let Ok(size) = input.read(buf) {
            return Ok(size);
        }
        patience = patience.wait(clock);
    }
    Err(ReadFailed)
}

// One write, made again while it fails or takes nothing, and patience lasts. Answers how many bytes it took from the start of text, none where it kept failing.
fn write_some<W: Write>(output: &mut W, clock: &impl Clock, text: &[u8]) -> Option<usize>
    ensures { IfSome result (λ size. (0 < size) × (size ≤ length text.now)) }
{
    let mut patience = Patience::fresh();
    // no count: waiting takes from patience, and may take all of it
    while patience.tries > 0 {
        let taken = output.write(text).unwrap_or(0);
        if taken > 0 {
            return Some(taken);
        }
        patience = patience.wait(clock);
    }
    None
}
