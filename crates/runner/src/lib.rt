// A scenario from standard input, carried out line by line, and what its lines come to on standard output.
#![tactic(auto)]

ghost use Rattle.std.specs.Prelude.{ℕ, IfOk, IfSome, OnOk, take};
ghost use Rattle.std.specs.Io.KnownBytes.{Appends};
ghost use Rattle.runner.specs.Transcript.{Begun, Transcribed};

mod line;
mod telling;

use line::told_line;
use std::alloc::Global;
use std::io;
use std::io::{BufRead, BufReader, BufWriter, ErrorKind, Read, Write};
use telling::put_telling;

// Longer than any answer: a record of 1,024 coefficients would be 8,784 hexadecimal digits.
const ROOM: usize = 16384;

// Writes a text to its end. By `write`, since of a `write_all` that fails a proof knows nothing.
pub(crate) fn put<W: Write>(out: &mut W, text: &[u8]) -> io::Result<()>
    ensures all { OnOk result (Appends (W.contents out.old) (W.contents out.new) text.now) }
    ensures front { (count : ℕ) × Appends (W.contents out.old) (W.contents out.new) (take count text.now) }
{
    let mut at = 0;
    'writes: for _ in 0..u64::MAX {
        if at == text.len() {
            return Ok(());
        }
        match out.write(&text[at..]) {
            Ok(0) => return Err(ErrorKind::WriteZero.into()),
            Ok(count) => at += count,
            Err(e) if e.kind() == ErrorKind::Interrupted => {}
            Err(e) => return Err(e),
        }
    }
    Err(ErrorKind::Other.into())
}

// Carries the lines of a scenario out, and writes what they come to. Where the input, the output or memory fails, a front
// of that was written.
pub fn carry_all<R: BufRead + Drop, W: Write>(heap: Global, input: R, out: &mut W) -> io::Result<()>
    ensures all { OnOk result (IfSome (R.Read.remaining input) (λ bytes. Transcribed bytes (W.contents out.old) (W.contents out.new))) }
    ensures front { IfSome (R.Read.remaining input) (λ bytes. Begun bytes (W.contents out.old) (W.contents out.new)) }
{
    let mut world = None;
    // Room for the answer to any line, so that a line that was carried out is told whatever memory is left.
    let mut text = String::with_capacity(heap, ROOM)?;
    'lines: for (index, line) in input.split(heap, b'\n').enumerate() {
        let told = told_line(heap, &mut world, index + 1, line?.as_slice(), &mut text)?;
        put_telling(told, &mut text, out)?;
    }
    out.flush()
}

/// The whole of a program, from its input to its output, each through a buffer: once it comes to its end, all that the lines come to
/// is in the output, and nothing is left in a buffer.
pub fn run<R: Read + Drop, W: Write + Drop>(heap: Global, input: R, output: W) -> io::Result<W>
    ensures { IfOk result (λ written. IfSome (R.remaining input) (λ bytes. Transcribed bytes (W.contents output) (W.contents written))) }
{
    let input = BufReader::new(heap, input)?;
    let mut out = BufWriter::new(heap, output)?;
    carry_all(heap, input, &mut out)?;
    Ok(out.into_inner()?)
}
