ghost use Rattle.std.specs.Prelude.{◌≡◌, ℕ, ◌-◌, ◌%◌, ◌^◌, ◌<◌, ◌≤◌, pos, nat_abs, ◌-ℤ◌};
ghost use Rattle.digits.specs.Integer.{half};
ghost use Rattle.digits.specs.Row.{widest};
ghost use Rattle.forms.specs.Residue.{width};
ghost use Rattle.forms.specs.Row.{digit};

use digits::Window;

// How the digits of a window m are told: half is 2^(W−1).
#[derive(Clone, Copy)]
pub struct DigitRule {
    pub m: u16,
    pub half: u16,
    ghost some: { 1 ≤ m },
    ghost most: { m ≤ widest },
    ghost is_half: { half ≡ 2 ^ (width m - 1) },
}

// A half for an x beyond the limit.
fn half_beyond(x: u16, limit: u16, half: u16) -> u16
    ensures { (limit < x → result ≡ half) × (x ≤ limit → result ≡ 0) }
{
    if limit < x { half } else { 0 }
}

impl DigitRule {
    // The rule of a window.
    pub fn new(window: Window) -> Self
        ensures { result.m ≡ window }
    {
        let m = window.get() as u16;
        DigitRule {
            m,
            half: 1u16 << (16 - m.leading_zeros()),
        }
    }

    // The digit of an odd x below 64: x modulo 2^W, less a half beyond m, and less another beyond 2^W − 1 − m.
    pub fn digit_of(self, x: u16) -> i16
        requires { (x < 64) × (x % 2 ≡ 1) }
        ensures { result ≡ digit self.m (pos x) }
    {
        let DigitRule { m, half } = self;
        let all = 2 * half - 1;
        let low = x & all;
        let first = half_beyond(low, m, half);
        let second = half_beyond(low, all - m, half);
        low as i16 - (first + second) as i16
    }
}

// What a digit leaves of x: (x − digit)/2.
pub fn rest_of(x: u64, digit: i16) -> u64
    requires { (x ≤ 2 ^ 48) × ((nat_abs digit ≤ 32) × ((k : ℕ) × (half (pos x -ℤ digit) ≡ pos k))) }
    ensures { pos result ≡ half (pos x -ℤ digit) }
{
    ((x as i64 - digit as i64) >> 1) as u64
}
