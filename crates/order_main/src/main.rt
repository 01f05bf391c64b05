// Reads an order k,l,slots from standard input and prints its sheet, or `N,number`. One byte more than the longest order is
// enough to tell that a line is none.
#![tactic(auto)]

ghost use Rattle.std.specs.Prelude.{OnOk, IfSome};
ghost use Rattle.std.specs.Io.KnownBytes.{Appends};
ghost use Rattle.digits.specs.Limits.{card};
ghost use Rattle.order.specs.Order.{printed};

use std::io;
use std::io::{Read, Write};

fn main(rt: HostRuntime) -> io::Result<()> {
    print_answer(&mut rt.stdin(), &mut rt.stdout())
}

// Writes what the order program prints for the bytes of the input.
fn print_answer<R: Read, W: Write>(input: &mut R, output: &mut W) -> io::Result<()>
    ensures { OnOk result (IfSome (R.remaining input.old) (λ order. Appends (W.contents output.old) (W.contents output.new) (printed card order))) }
{
    let mut line = [0u8; 274];
    let n = streams::read_full(input, &mut line)?;
    let mut text = [0u8; 16384];
    let length = order::order(&line[..n], &mut text);
    output.write_all(&text[..length])
}
