ghost use Rattle.std.specs.Prelude.{◌≡◌, ◌∷◌, [], ◌%◌, ◌<◌, ◌≤◌, nat_abs};
ghost use Rattle.sheet.specs.Numeral.{figure, numeral};
ghost use Rattle.sheet.specs.Plan.{point};
ghost use Rattle.sheet.specs.Spelling;
ghost use Rattle.digits.specs.Byte.{signed};
ghost use Rattle.writer.specs.Body.Parts.{Put, PutIf, Room, point_line};

// The size of a digit, without its sign. Not by `unsigned_abs`: a plan J then takes 1.04 times as many instructions.
fn size(digit: u8) -> u32
    ensures { result ≡ nat_abs (signed digit) }
{
    if 128 <= digit {
        256 - digit as u32
    } else {
        digit as u32
    }
}

// What n has below its hundreds. Not by `%`: a plan J then takes 1.06 times as many instructions.
fn below_hundred(n: u32) -> u32
    requires { n < 200 }
    ensures { result ≡ n % 100 }
{
    if 100 <= n { n - 100 } else { n }
}

// Each of these puts bytes at a place of the buffer, and returns the place behind them. Not a struct of both: with `&mut self` a plan takes
// 1.24 to 1.43 times as many instructions, and with `self` by value what the buffer holds afterwards is not proved.
pub fn put_byte(out: &mut [u8], at: usize, byte: u8) -> usize
    requires { Room out.old at (byte ∷ []) }
    ensures { Put out.old out.new at result (byte ∷ []) }
{
    out[at] = byte;
    at + 1
}

pub fn put_figure(out: &mut [u8], at: usize, n: u32) -> usize
    requires { (n < 16) × Room out.old at (figure n ∷ []) }
    ensures { Put out.old out.new at result (figure n ∷ []) }
{
    put_byte(out, at, sheet::figures::figure_of(n))
}

// The figures of n with no leading zero.
pub fn put_numeral(out: &mut [u8], at: usize, base: u32, n: u32) -> usize
    requires { ((2 ≤ base) × (base ≤ 16)) × Room out.old at (numeral base n) }
    ensures { Put out.old out.new at result (numeral base n) }
{
    if n < base {
        return put_figure(out, at, n);
    }
    let next = put_numeral(out, at, base, n / base);
    put_figure(out, next, n % base)
}

// A byte that is kept or not: where not, the place returned is its own, and the next put overwrites it.
fn put_if(out: &mut [u8], at: usize, kept: bool, byte: u8) -> usize
    requires { Room out.old at (byte ∷ []) }
    ensures { PutIf out.old out.new at result kept byte }
{
    out[at] = byte;
    at + usize::from(kept)
}

// A digit, which is a byte in two's complement: a decimal, with a minus if negative. Without branches, for speed.
pub fn put_digit(out: &mut [u8], at: usize, digit: u8) -> usize
    requires { Room out.old at (Spelling.digit (signed digit)) }
    ensures { Put out.old out.new at result (Spelling.digit (signed digit)) }
{
    let size = size(digit);
    let rest = below_hundred(size);
    let hundreds = put_if(out, at, 128 <= digit, b'-');
    let tens = put_if(out, hundreds, 100 <= size, b'1');
    let ones = put_if(out, tens, 10 <= size, (48 + rest / 10) as u8);
    put_byte(out, ones, (48 + rest % 10) as u8)
}

// A line of a letter and a point.
pub fn put_point(out: &mut [u8], at: usize, letter: u8, p: u8, q: u8) -> usize
    requires { Room out.old at (point_line letter (point (signed p) (signed q))) }
    ensures { Put out.old out.new at result (point_line letter (point (signed p) (signed q))) }
{
    let a = put_byte(out, at, letter);
    let b = put_byte(out, a, b',');
    let c = put_digit(out, b, p);
    let d = put_byte(out, c, b',');
    let e = put_digit(out, d, q);
    put_byte(out, e, b'\n')
}
