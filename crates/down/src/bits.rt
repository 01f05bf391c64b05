ghost use Rattle.std.specs.Prelude.{◌≡◌, ◌+◌, ◌-◌, ◌*◌, ◌/◌, ◌%◌, ◌^◌, ◌<◌, ◌≤◌, length, get_or};
ghost use Rattle.digits.specs.Limits.{gateway};
ghost use Rattle.digits.specs.Scalar.{bit_length};
ghost use Rattle.down.specs.Body.Ahead.{four, eight, turned, Filled, Folded};

// 2^32.
const WORD: u64 = 4294967296;

// Four bytes as one number, the most significant first.
fn four_at(scalar: &[u8], at: usize) -> u32
    requires { at + 3 < length scalar.now }
    ensures { result ≡ four scalar.now at }
{
    u32::from_be_bytes([scalar[at], scalar[at + 1], scalar[at + 2], scalar[at + 3]])
}

// The byte at a place, and 0 past the end. (The bytes of recode are taken from the lowest on, and as numbers of 64 bits.)
fn byte_at(scalar: &[u8], at: usize) -> u32
    ensures { (result ≡ get_or scalar.now at 0) × (result < 256) }
{
    u32::from(scalar.get(at).copied().unwrap_or(0))
}

// Four bytes as one number, with zeros past the end.
fn word_at(scalar: &[u8], at: usize) -> u32
    requires { at ≤ 2 * gateway.bytes }
    ensures { result ≡ four scalar.now at }
{
    if at + 3 < scalar.len() {
        return four_at(scalar, at);
    }
    let high = 256 * byte_at(scalar, at) + byte_at(scalar, at + 1);
    let low = 256 * byte_at(scalar, at + 2) + byte_at(scalar, at + 3);
    65536 * high + low
}

// Eight bytes as one number, with zeros past the end.
fn eight_at(scalar: &[u8], at: usize) -> u64
    requires { at + 4 ≤ 2 * gateway.bytes }
    ensures { result ≡ eight scalar.now at }
{
    WORD * u64::from(word_at(scalar, at)) + u64::from(word_at(scalar, at + 4))
}

// Eight bytes as they are, or with every bit turned for a minus.
fn eight_with(eight: u64, sign: u32) -> u64
    ensures { (result ≡ turned sign 64 eight) × (result < 2 ^ 64) }
{
    if sign == 0 { eight } else { !eight }
}

// The bits of a scalar that were read and not yet taken, turned for a minus: the `held` highest of `bits`, and zeros below them. The next
// byte is the one at `at`.
#[derive(Clone, Copy)]
pub struct Bits {
    pub at: usize,
    pub held: u32,
    pub bits: u64,
}

impl Bits {
    // The 0 above all bytes.
    pub fn new(sign: u32) -> Self
        ensures { (result.at ≡ 0) × ((result.held ≡ 1) × (result.bits ≡ turned sign 1 0 * 2 ^ 63)) }
    {
        Bits {
            at: 0,
            held: 1,
            bits: if sign == 0 { 0 } else { 1 << 63 },
        }
    }

    // The same with as many bytes more as there is room for.
    pub fn filled(self, scalar: &[u8], sign: u32) -> Self
        requires { (self.at + 4 ≤ 2 * gateway.bytes) × ((self.held ≤ 56) × (self.bits + 2 ^ (64 - self.held) ≤ 2 ^ 64)) }
        ensures { Filled scalar.now sign self result }
    {
        let low = (64 - self.held) % 8;
        let more = 64 - self.held - low;
        let word = eight_with(eight_at(scalar, self.at), sign);
        Bits {
            at: self.at + (more / 8) as usize,
            held: self.held + more,
            bits: self.bits + ((word >> (64 - more)) << low),
        }
    }

    // The highest one.
    pub fn highest(self) -> u32
        ensures { result ≡ self.bits / 2 ^ 63 }
    {
        (self.bits >> 63) as u32
    }

    // Those below the highest one, each turned where that one is set.
    pub fn folded(self) -> u64
        ensures { Folded self.bits result }
    {
        if self.bits < 1 << 63 {
            self.bits
        } else {
            !self.bits
        }
    }

    // Without the highest ones.
    pub fn less(self, taken: u32) -> Self
        requires { (taken ≤ self.held) × (taken < 64) }
        ensures { (result.at ≡ self.at) × ((result.held ≡ self.held - taken) × (result.bits ≡ self.bits * 2 ^ taken % 2 ^ 64)) }
    {
        Bits {
            at: self.at,
            held: self.held - taken,
            bits: self.bits << taken,
        }
    }
}

// The bit length of a number.
pub fn bits_of(n: u32) -> u32
    ensures { result ≡ bit_length n }
{
    32 - n.leading_zeros()
}

// How many of 64 bits stand above the bits of a number.
pub fn zeros_above(n: u64) -> u32
    ensures { result + bit_length n ≡ 64 }
{
    n.leading_zeros()
}
