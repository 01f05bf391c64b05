ghost use Rattle.std.specs.Prelude.{◌≡◌, true, ◌++◌, ◌<◌, ◌≤◌, pos, length, get_or, replicate};
ghost use Rattle.digits.specs.Integer.{signed_by};
ghost use Rattle.digits.specs.Limits.{card};
ghost use Rattle.digits.specs.Scalar.{signed_scalar, sized};
ghost use Rattle.sheet.specs.Numeral.{worth, figures, followed};
ghost use Rattle.sheet.specs.Spelling.Field.{is_whole, whole_of};

use digits::Scalar;
use std::marker::Model;

// A scalar with a buffer of its own, since there is no heap: the first `len` bytes are its own. Clauses see the number.
#[derive(Drop)]
pub struct Signed {
    bytes: [u8; 66],
    len: usize,
    sign: u32,
}

impl Model for Signed {
    ghost use Rattle.std.specs.Prelude.{ℤ, ◌≤◌, take};
    ghost use Rattle.digits.specs.Scalar.{Bytes, signed_scalar};

    ghost Value = { ℤ };

    ghost view = { λ s. signed_scalar (take s.len s.bytes) s.sign };

    ghost invariant = { λ s. (1 ≤ s.len) × ((s.len ≤ 66) × Bytes s.bytes) };
}

impl Signed {
    // The scalar, with the bytes lent.
    pub fn scalar(&self) -> Scalar<'_>
        ensures value { signed_scalar result.bytes.now result.sign ≡ self.now }
        ensures size { sized card result.bytes.now ≡ true }
    {
        Scalar {
            bytes: &self.bytes[..self.len],
            sign: self.sign,
        }
    }
}

// The figure at a place of a field that has `pad` zeros in front of it.
fn figure_at(field: &[u8], pad: usize, at: usize) -> u8
    requires { figures 16 field.now ≡ true }
    ensures { (result ≡ worth (get_or (replicate pad 48 ++ field.now) at 48)) × (result < 16) }
{
    if at < pad {
        return 0;
    }
    // By a match: with `map_or` the check does not find that the figure is below 16, and each case asks for a lemma of its own.
    match field.get(at - pad) {
        Some(byte) => sheet::figures::worth_of(*byte) as u8,
        None => 0,
    }
}

// The scalar of a sign and hexadecimal figures.
fn scalar_with(sign: u32, field: &[u8]) -> Signed
    requires { ((1 ≤ length field.now) × (length field.now ≤ 132)) × (figures 16 field.now ≡ true) }
    ensures { result ≡ signed_by sign (pos (followed 16 0 field.now)) }
{
    let pad = field.len() % 2;
    let len = (field.len() + pad) / 2;
    let mut bytes = [0u8; 66];
    // By an index: what holds after i bytes is said of all 66, of which the value takes the first `len`.
    for i in 0..len {
        bytes[i] = 16 * figure_at(field, pad, 2 * i) + figure_at(field, pad, 2 * i + 1);
    }
    Signed { bytes, len, sign }
}

// The scalar that a field spells.
pub fn scalar_of(field: &[u8]) -> Signed
    requires { is_whole 16 card.figures field.now ≡ true }
    ensures { result ≡ whole_of 16 field.now }
{
    scalar_with(
        sheet::fields::sign_of(field),
        sheet::fields::unsigned(field),
    )
}
