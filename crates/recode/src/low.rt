ghost use Rattle.std.specs.Prelude.{◌+◌, ◌^◌, ◌≤◌};

use crate::bits::{word_at, zeros_of};

// The low bits of a running remainder, which is low + 2^bits × the bytes from `at` on. They are few, and a digit that was taken off may
// have carried into the next one.
#[derive(Clone, Copy)]
pub struct Low {
    pub at: usize,
    pub bits: u32,
    pub low: u64,
    ghost few: { bits ≤ 47 },
    ghost carried: { low ≤ 2 ^ bits + 31 },
}

impl Low {
    ghost use Rattle.std.specs.Prelude.{◌≡◌, ℕ, ◌-◌, ◌*◌, ◌/◌, ◌%◌, ◌<◌, pos, nat_abs, ◌-ℤ◌};
    ghost use Rattle.digits.specs.Integer.{half};
    ghost use Rattle.recode.specs.Body.Remainder.{remaining};

    // No bits taken yet.
    pub fn new() -> Self
        ensures { (result.at ≡ 0) × ((result.bits ≡ 0) × (result.low ≡ 0)) }
    {
        Low {
            at: 0,
            bits: 0,
            low: 0,
        }
    }

    // The same remainder with at least 16 low bits: 32 more where there are fewer.
    pub fn filled(self, bytes: &[u8]) -> Self
        ensures { (remaining bytes.now result ≡ remaining bytes.now self) × ((16 ≤ result.bits) × (result.bits ≡ self.bits + 32 * (1 - self.bits / 16))) }
    {
        let Low { at, bits, low } = self;
        if 16 <= bits {
            // Made anew, since the compiler keeps it in registers then, and `self` in memory.
            return Low { at, bits, low };
        }
        if bytes.len() <= at {
            return Low {
                at,
                bits: bits + 32,
                low,
            };
        }
        let word = word_at(bytes, at);
        Low {
            at: at + 4,
            bits: bits + 32,
            low: low + (word << bits),
        }
    }

    // The lowest 6 bits, which tell the digit.
    pub fn lowest(self) -> u16
        ensures { result ≡ self.low % 64 }
    {
        (self.low % 64) as u16
    }

    // How many of the low bits are zeros below the first one: all of them where there is none.
    pub fn zeros(self) -> u32
        requires { 16 ≤ self.bits }
        ensures { (result ≤ self.bits) × ((self.low ≡ 2 ^ result * (self.low / 2 ^ result)) × (result < self.bits → self.low / 2 ^ result % 2 ≡ 1)) }
    {
        zeros_of(self.low, self.bits)
    }

    // The remainder without its lowest zeros.
    pub fn shifted(self, zeros: u32) -> Self
        requires { (zeros ≤ self.bits) × (self.low ≡ 2 ^ zeros * (self.low / 2 ^ zeros)) }
        ensures { (result.at ≡ self.at) × ((result.bits + zeros ≡ self.bits) × (result.low ≡ self.low / 2 ^ zeros)) }
    {
        Low {
            at: self.at,
            bits: self.bits - zeros,
            low: self.low >> zeros,
        }
    }

    // The remainder less a digit, halved.
    pub fn less(self, digit: i16) -> Self
        requires { (1 ≤ self.bits) × ((nat_abs digit ≤ 31) × ((k : ℕ) × (half (pos self.low -ℤ digit) ≡ pos k))) }
        ensures { (result.at ≡ self.at) × ((result.bits + 1 ≡ self.bits) × (pos result.low ≡ half (pos self.low -ℤ digit))) }
    {
        Low {
            at: self.at,
            bits: self.bits - 1,
            low: crate::digit::rest_of(self.low, digit),
        }
    }
}
