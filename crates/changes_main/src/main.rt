// Prints a line for each order with scalars from 0 to 15 and a limit of at most 3 whose plan changed when doublings came before slots.
#![tactic(auto)]

ghost use Rattle.std.specs.Prelude.{OnOk};
ghost use Rattle.std.specs.Io.KnownBytes.{Appends};
ghost use Rattle.changes.specs.Changed.{changed_orders};

use std::io;
use std::io::Write;

fn main(rt: HostRuntime) -> io::Result<()> {
    print_changes(&mut rt.stdout())
}

// Writes the list of these orders.
fn print_changes<W: Write>(output: &mut W) -> io::Result<()>
    ensures { OnOk result (Appends (W.contents output.old) (W.contents output.new) changed_orders) }
{
    let mut text = [0u8; 18432];
    let length = changes::changed_orders(&mut text);
    output.write_all(&text[..length])
}
