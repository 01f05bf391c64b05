ghost use Rattle.std.specs.Prelude.{◌<◌, cond, ◌∷◌, []};
ghost use Rattle.digits.specs.Integer.{is_negative};
ghost use Rattle.digits.specs.Scalar.{scalar, signed_scalar};
ghost use Rattle.sheet.specs.Numeral.{numeral};
ghost use Rattle.sheet.specs.Spelling;
ghost use Rattle.sheet.specs.Spelling.{minus};
ghost use Rattle.writer.specs.Body.Parts.{Put, Room, byte_figures};

use digits::Scalar;

// The figures of a byte: without leading zeros where it is the first that has any. A flag in place of two functions: one loop puts all bytes.
fn put_figures(out: &mut [u8], at: usize, first: bool, byte: u8) -> usize
    requires { Room out.old at (byte_figures first byte) }
    ensures { Put out.old out.new at result (byte_figures first byte) }
{
    let byte = byte as u32;
    if !first {
        let next = crate::put::put_figure(out, at, byte / 16);
        return crate::put::put_figure(out, next, byte % 16);
    }
    if byte == 0 {
        return at;
    }
    crate::put::put_numeral(out, at, 16, byte)
}

// The figures of a scalar's bytes: lower-case hexadecimal, no leading zero, `0` for zero.
fn put_scalar(out: &mut [u8], at: usize, bytes: &[u8]) -> usize
    requires { Room out.old at (numeral 16 (scalar bytes.now)) }
    ensures { Put out.old out.new at result (numeral 16 (scalar bytes.now)) }
{
    let mut next = at;
    for &byte in bytes {
        next = put_figures(out, next, next == at, byte);
    }
    if next == at {
        return crate::put::put_byte(out, at, b'0');
    }
    next
}

// The minus of a scalar that is negative.
fn put_minus(out: &mut [u8], at: usize, k: Scalar<'_>) -> usize
    requires { Room out.old at (cond (is_negative (signed_scalar k.bytes.now k.sign)) (minus ∷ []) []) }
    ensures { Put out.old out.new at result (cond (is_negative (signed_scalar k.entry.bytes.now k.entry.sign)) (minus ∷ []) []) }
{
    if k.is_negative() {
        return crate::put::put_byte(out, at, b'-');
    }
    at
}

// A scalar with its sign: a minus before the figures if it is negative.
pub fn put_signed(out: &mut [u8], at: usize, k: Scalar<'_>) -> usize
    requires { Room out.old at (Spelling.scalar (signed_scalar k.bytes.now k.sign)) }
    ensures { Put out.old out.new at result (Spelling.scalar (signed_scalar k.entry.bytes.now k.entry.sign)) }
{
    let next = put_minus(out, at, k);
    put_scalar(out, next, k.bytes)
}
