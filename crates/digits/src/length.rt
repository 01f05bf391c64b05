ghost use Rattle.digits.specs.Scalar.{scalar, BitsOf};

// A bit length: 8 for each byte below the first non-zero one, and the bits of that one.
#[derive(Clone, Copy)]
pub struct BitLength {
    pub below: usize,
    pub top: u32,
}

// The bit length of a scalar, from the leading zeros of its first non-zero byte.
pub fn bit_length(bytes: &[u8]) -> BitLength
    ensures { BitsOf (scalar bytes.now) result.below result.top }
{
    for (i, &byte) in bytes.iter().enumerate() {
        if byte != 0 {
            return BitLength {
                below: bytes.len() - (i + 1),
                top: 8 - byte.leading_zeros(),
            };
        }
    }
    BitLength { below: 0, top: 0 }
}
