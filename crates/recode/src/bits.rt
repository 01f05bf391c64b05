ghost use Rattle.std.specs.Prelude.{◌≡◌, ◌+◌, ◌*◌, ◌/◌, ◌%◌, ◌^◌, ◌<◌, ◌≤◌, length, get_or};
ghost use Rattle.recode.specs.Body.Remainder.{Word};

// The byte at a place, and 0 past the end. (Down reads numbers from the top byte on and of 32 bits: the order and the width would be
// parameters of what the two crates could share.)
fn byte_at(bytes: &[u8], at: usize) -> u64
    ensures { (result ≡ get_or bytes.now at 0) × (result < 256) }
{
    u64::from(bytes.get(at).copied().unwrap_or(0))
}

// Four bytes as one number, the least significant first.
fn four_at(bytes: &[u8], at: usize) -> u64
    requires { at + 3 < length bytes.now }
    ensures { Word bytes.now at result }
{
    u64::from(u32::from_le_bytes([bytes[at], bytes[at + 1], bytes[at + 2], bytes[at + 3]]))
}

// The same, with zeros past the end.
pub fn word_at(bytes: &[u8], at: usize) -> u64
    requires { at < length bytes.now }
    ensures { Word bytes.now at result }
{
    if at + 3 < bytes.len() {
        return four_at(bytes, at);
    }
    byte_at(bytes, at) + 256 * byte_at(bytes, at + 1) + 65536 * byte_at(bytes, at + 2)
}

// How many zeros stand below the lowest one of a number that has `bits` bits and perhaps a carry: all of them where it is 0.
pub fn zeros_of(n: u64, bits: u32) -> u32
    requires { (bits ≤ 47) × (n < 2 ^ (bits + 1)) }
    ensures { (result ≤ bits) × ((n ≡ 2 ^ result * (n / 2 ^ result)) × (result < bits → n / 2 ^ result % 2 ≡ 1)) }
{
    if n == 0 { bits } else { n.trailing_zeros() }
}
