ghost use Rattle.std.specs.Prelude.{◌≡◌, ◌&&◌};
ghost use Rattle.digits.specs.Asked.{Asked};
ghost use Rattle.digits.specs.Integer.{is_negative};
ghost use Rattle.digits.specs.Scalar.{Bytes, signed_scalar, sized};
ghost use Rattle.digits.specs.declared.missed.Missed.TheVariants.{BadScalar};

use crate::limits::Limits;
use crate::missed::Missed;

// A scalar: its bytes, the most significant first, and its sign, 0 for plus and any other number for minus.
#[derive(Clone, Copy)]
pub struct Scalar<'a> {
    pub bytes: &'a [u8],
    pub sign: u32,
    ghost are_bytes: { Bytes bytes.now },
}

impl<'a> Scalar<'a> {
    // The scalar of bytes and a sign.
    pub fn new(bytes: &'a [u8], sign: u32) -> Self
        ensures { (result.bytes.now ≡ bytes.now) × (result.sign ≡ sign) }
    {
        Scalar { bytes, sign }
    }

    // Question 1: whether it has at least one byte and no more than the limits allow.
    fn is_sized(self, limits: Limits) -> bool
        ensures { result ≡ sized limits self.entry.bytes.now }
    {
        !self.bytes.is_empty() && self.bytes.len() <= limits.bytes
    }

    // Question 1, with the answer of a call that misses it.
    pub fn check(self, limits: Limits) -> Result<(), Missed>
        ensures { Asked (sized limits self.entry.bytes.now) BadScalar result }
    {
        if self.is_sized(limits) {
            return Ok(());
        }
        Err(Missed::BadScalar)
    }

    // Whether it is negative: it has a minus sign, and is not 0.
    pub fn is_negative(self) -> bool
        ensures { result ≡ is_negative (signed_scalar self.entry.bytes.now self.entry.sign) }
    {
        let Scalar { bytes, sign } = self;
        sign != 0 && crate::length::bit_length(bytes).top != 0
    }
}

// Question 1 of both scalars.
pub fn check_scalars(k: Scalar<'_>, l: Scalar<'_>, limits: Limits) -> Result<(), Missed>
    ensures { Asked (sized limits k.entry.bytes.now && sized limits l.entry.bytes.now) BadScalar result }
{
    k.check(limits)?;
    l.check(limits)
}
