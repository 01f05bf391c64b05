ghost use Rattle.std.specs.Prelude.{map, ◌<◌};
ghost use Rattle.sheet.specs.Line.{table};
ghost use Rattle.sheet.specs.Plan.{stored, tables};
ghost use Rattle.sheet.specs.Sound.{Window};
ghost use Rattle.sheet.specs.Spelling.{spell};
ghost use Rattle.written.specs.Valid.{Valid};
ghost use Rattle.writer.specs.Body.Parts.{Put, Room, point_line, alone, odd_lines, window_bytes};

use sheet::Plan;

// −1, in two's complement.
const MINUS_ONE: u8 = 255;

// The point that a table has multiples of.
#[derive(Clone, Copy)]
pub enum Base {
    P,
    Q,
}

// The T line of a multiple.
fn put_multiple(out: &mut [u8], at: usize, base: Base, n: u8) -> usize
    requires { (n < 128) × Room out.old at (point_line 84 (alone base n)) }
    ensures { Put out.old out.new at result (point_line 84 (alone base n)) }
{
    match base {
        Base::P => crate::put::put_point(out, at, b'T', n, 0),
        Base::Q => crate::put::put_point(out, at, b'T', 0, n),
    }
}

// The T lines of the odd multiples from 3 to m.
fn put_odds(out: &mut [u8], at: usize, base: Base, m: u8) -> usize
    requires { Window m × Room out.old at (odd_lines base 3 (stored m)) }
    ensures { Put out.old out.new at result (odd_lines base 3 (stored m)) }
{
    let mut next = at;
    for n in (3..=m).step_by(2) {
        next = put_multiple(out, next, base, n);
    }
    next
}

// The T lines of the window m: none for 1, else 2 and the odd multiples from 3 to m.
fn put_multiples(out: &mut [u8], at: usize, base: Base, m: u8) -> usize
    requires { Window m × Room out.old at (window_bytes base m) }
    ensures { Put out.old out.new at result (window_bytes base m) }
{
    if m < 3 {
        return at;
    }
    let next = put_multiple(out, at, base, 2);
    put_odds(out, next, base, m)
}

// The plan's own T lines.
pub fn put_tables(out: &mut [u8], at: usize, plan: Plan) -> usize
    requires { Valid plan × Room out.old at (spell (map table (tables plan))) }
    ensures { Put out.old out.new at result (spell (map table (tables plan))) }
{
    match plan {
        Plan::J => {
            let next = crate::put::put_point(out, at, b'T', 1, 1);
            crate::put::put_point(out, next, b'T', 1, MINUS_ONE)
        }
        Plan::I(m1, m2) => {
            let next = put_multiples(out, at, Base::P, m1 as u8);
            put_multiples(out, next, Base::Q, m2 as u8)
        }
    }
}
