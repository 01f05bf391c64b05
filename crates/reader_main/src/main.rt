// Reads a sheet from standard input and prints `Y` or `N,number,line`. One byte more than the longest good sheet is enough
// to tell that a sheet is too long.
#![tactic(auto)]

ghost use Rattle.std.specs.Prelude.{OnOk, IfSome};
ghost use Rattle.std.specs.Io.KnownBytes.{Appends};
ghost use Rattle.digits.specs.Limits.{card};
ghost use Rattle.sheet.specs.Answer.{answer};
ghost use Rattle.reader.specs.Text.{answer_line};

use std::io;
use std::io::{Read, Write};

fn main(rt: HostRuntime) -> io::Result<()> {
    print_verdict(&mut rt.stdin(), &mut rt.stdout())
}

// Writes the line that answers the bytes of the input, as a sheet.
fn print_verdict<R: Read, W: Write>(input: &mut R, output: &mut W) -> io::Result<()>
    ensures { OnOk result (IfSome (R.remaining input.old) (λ sheet. Appends (W.contents output.old) (W.contents output.new) (answer_line (answer card sheet)))) }
{
    let mut buffer = [0u8; 16385];
    let n = streams::read_full(input, &mut buffer)?;
    let text = reader::verdict(&buffer[..n]);
    let at = text.at;
    let bytes = text.bytes;
    output.write_all(&bytes[at..])
}
