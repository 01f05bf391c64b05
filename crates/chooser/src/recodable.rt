ghost use Rattle.std.specs.Prelude.{◌≡◌, ◌≤◌, length};
ghost use Rattle.digits.specs.Limits.{gateway};

use digits::Scalar;

// A scalar that met question 1 at some machine: it has at least one byte, and no more than the gateway takes.
#[derive(Clone, Copy)]
pub struct Recodable<'a> {
    pub scalar: Scalar<'a>,
    ghost some: { 1 ≤ length scalar.bytes.now },
    ghost few: { length scalar.bytes.now ≤ gateway.bytes },
}

impl<'a> Recodable<'a> {
    // The scalar with the sign plus; the sizes of its forms do not depend on the sign.
    pub fn unsigned(self) -> Scalar<'a>
        ensures { (result.bytes.now ≡ self.entry.scalar.bytes.now) × (result.sign ≡ 0) }
    {
        Scalar {
            bytes: self.scalar.bytes,
            sign: 0,
        }
    }
}
