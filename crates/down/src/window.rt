ghost use Rattle.std.specs.Prelude.{◌≡◌, ◌+◌, ◌*◌, ◌/◌, ◌%◌, ◌^◌, ◌<◌, ◌≤◌, pos};
ghost use Rattle.digits.specs.Byte.{byte_of};
ghost use Rattle.digits.specs.Integer.{signed_by};
ghost use Rattle.digits.specs.Row.{widest};
ghost use Rattle.digits.specs.Scalar.{bit_length};
ghost use Rattle.forms.specs.Residue.{width};
ghost use Rattle.down.specs.Body.Window.{WindowOf};

// The digit of a window below equal bits: how many places the window takes with them, and the size of what it is worth, an odd number
// above some zeros.
#[derive(Clone, Copy)]
pub struct WindowDigit {
    pub taken: u32,
    pub zeros: u32,
    pub odd: u32,
}

// Half of the bits of x from a place on, rounded up.
fn half_of(x: u64, low: u32) -> u32
    requires { (low ≤ 63) × (x / 2 ^ low < 64) }
    ensures { result ≡ (x / 2 ^ low + 1) / 2 }
{
    (((x >> low) + 1) >> 1) as u32
}

// A window by the size of what it is worth.
fn sized(taken: u32, size: u32) -> WindowDigit
    requires { 0 < size }
    ensures { (result.taken ≡ taken) × ((size ≡ 2 ^ result.zeros * result.odd) × (result.odd % 2 ≡ 1)) }
{
    let zeros = size.trailing_zeros();
    WindowDigit {
        taken,
        zeros,
        odd: size >> zeros,
    }
}

// The window of the top bits of x below the equal bits of 64: `most` places are taken with the width W, and one fewer where the digit is
// beyond m.
pub fn window_of(x: u64, most: u32, m: u32) -> WindowDigit
    requires most { (most ≤ 63) × (most + bit_length x ≡ 63 + width m) }
    requires window { (1 ≤ m) × (m ≤ widest) }
    ensures { WindowOf 63 m x (bit_length x) result }
{
    let wide = sized(most, half_of(x, 63 - most));
    if m < wide.odd {
        return sized(most - 1, half_of(x, 64 - most));
    }
    wide
}

// The byte of a digit, by its size and its sign. (The call of digits takes the digit with its sign, which no value here has.)
pub fn byte_of(size: u32, sign: u32) -> u8
    requires { (1 ≤ size) × (size ≤ 32) }
    ensures { result ≡ byte_of (signed_by sign (pos size)) }
{
    if sign == 0 {
        size as u8
    } else {
        (size as u8).wrapping_neg()
    }
}
