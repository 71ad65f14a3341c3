// What a program does: it reads a frame file, composes the text of it in a tone, and writes that.
#![tactic(auto)]

ghost use Rattle.std.specs.Prelude.{◌≢◌, ◌<◌, length, take, IfErr, IfOk, IfSome, OnErr, OnOk};
ghost use Rattle.std.specs.Io.{ReadsAtMost, WritesAtMost};
ghost use Rattle.std.specs.Io.KnownBytes.{Appends, Consumes, IsAtEnd, WriteAppends};
ghost use Rattle.std.specs.IoError.{error_kind};
ghost use Rattle.printing.specs.Printing.{printed};
ghost use Rattle.print_file.specs.Parts.{AppendsFront};

use printing::Tone;
use std::io;
use std::io::{ErrorKind, Read, Write};
use text::Text;

// Reads until the buffer is full, the input ends or a read fails, and answers how many bytes it put at the front of the buffer.
fn read_full<R: Read>(input: &mut R, file: &mut [u8]) -> io::Result<usize>
    ensures within { ReadsAtMost result file.new }
    ensures bytes { IfOk result (λ n. Consumes (R.remaining input.old) (R.remaining input.new) (take n file.new)) }
    ensures end { IfOk result (λ n. n < length file.new → IsAtEnd (R.remaining input.new)) }
{
    let mut length = 0;
    // std has no method that reads until the buffer is full or the input ends: `read_exact` fails on less, `read_to_end` needs a heap.
    while length < file.len() {
        let count = input.read(&mut file[length..])?;
        if count == 0 {
            return Ok(length);
        }
        length += count;
    }
    Ok(length)
}

// How often a write that signals interrupt is tried: more than std's `write_all` tries for the longest text.
const TRIES: usize = 65536;

// One write, tried again where a signal interrupts it.
fn write_retrying<W: Write>(output: &mut W, bytes: &[u8]) -> io::Result<usize>
    ensures bound { WritesAtMost result bytes.now }
    ensures bytes { WriteAppends (W.contents output.old) (W.contents output.new) result bytes.now }
    ensures retried { IfErr result (λ why. error_kind why ≢ ErrorKind.Interrupted) }
{
    for _ in 0..TRIES {
        match output.write(bytes) {
            Ok(written) => return Ok(written),
            Err(why) => {
                if why.kind() != ErrorKind::Interrupted {
                    return Err(why);
                }
            }
        }
    }
    Err(io::Error::from(ErrorKind::TimedOut))
}

// Writes all of the bytes, or, where a write fails or takes none, those before it.
fn write_full<W: Write>(output: &mut W, bytes: &[u8]) -> io::Result<()>
    ensures whole { OnOk result (Appends (W.contents output.old) (W.contents output.new) bytes.now) }
    ensures front { OnErr result (AppendsFront (W.contents output.old) (W.contents output.new) bytes.now) }
    ensures retried { IfErr result (λ why. error_kind why ≢ ErrorKind.Interrupted) }
{
    let mut length = 0;
    // `write_all` of std does not say what was written where it fails.
    while length < bytes.len() {
        let written = write_retrying(output, &bytes[length..])?;
        if written == 0 {
            return Err(io::Error::from(ErrorKind::WriteZero));
        }
        length += written;
    }
    Ok(())
}

// Where the bytes of the input are known, and what the output holds, this grows by all that is printed of them. Where a
// read or a write fails, it grows by a front part of that text, which is not all of it: by none of it where a read failed,
// since nothing is written before all is read. How far the input was read is left open then. At most 2,049 bytes are read:
// one more than a file may have, so that a longer one is seen, and endless input ends.
pub fn print_file<R: Read, W: Write>(input: &mut R, output: &mut W, tone: Tone) -> io::Result<()>
    ensures whole { OnOk result (IfSome (R.remaining input.old) (λ file.
        Appends (W.contents output.old) (W.contents output.new) (printed tone file))) }
    ensures front { OnErr result (IfSome (R.remaining input.old) (λ file.
        AppendsFront (W.contents output.old) (W.contents output.new) (printed tone file))) }
{
    let mut file = [0u8; 2049];
    let length = read_full(input, &mut file)?;
    let mut text = Text::new();
    frame_text::compose_to(&mut text, &file[..length], tone);
    write_full(output, text.as_str().as_bytes())
}
