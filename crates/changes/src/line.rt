ghost use Rattle.std.specs.Prelude.{◌≡◌, ◌+◌, ◌≤◌, ◌<◌, pos, length};
ghost use Rattle.std.proofs.Math.Seq.{paste};
ghost use Rattle.changes.specs.Changed.{line_with};
ghost use Rattle.changes.specs.Body.{OneFigure};

use sheet::Plan;

// The line of an order with an old and a new plan, each field of which has one figure.
pub fn line_of(k: u32, l: u32, slots: u32, old: Plan, new: Plan) -> [u8; 18]
    requires { (k < 16) × ((l < 16) × ((slots < 10) × (OneFigure old × OneFigure new))) }
    ensures answer { result ≡ line_with (record { k = pos k; l = pos l; slots = slots }) old new }
    ensures line_length { length result ≡ 18 }
{
    let before = old.limits();
    let after = new.limits();
    [
        sheet::figures::figure_of(k),
        b',',
        sheet::figures::figure_of(l),
        b',',
        sheet::figures::figure_of(slots),
        b',',
        writer::letter_of(old),
        b',',
        sheet::figures::figure_of(before.p),
        b',',
        sheet::figures::figure_of(before.q),
        b',',
        writer::letter_of(new),
        b',',
        sheet::figures::figure_of(after.p),
        b',',
        sheet::figures::figure_of(after.q),
        b'\n',
    ]
}

// Puts a line at a place. (Buffer and place apart, as in the writer.)
pub fn put_line(out: &mut [u8], at: usize, line: [u8; 18])
    requires { (at + 18 ≤ length out.old) × (length line ≡ 18) }
    ensures { out.new ≡ paste out.old at line 18 }
{
    out[at..at + 18].copy_from_slice(&line);
}
