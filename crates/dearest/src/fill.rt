ghost use Rattle.std.specs.Prelude.{◌≡◌, ◌++◌, suc, ◌*◌, ◌-◌, ◌<◌, ◌≤◌, length, take, replicate};
ghost use Rattle.dearest.specs.Body.{pairs};
ghost use Rattle.dearest.specs.Bytes.{in_bytes};

// A byte of four pairs of bits 10.
const PAIRS: u8 = 170;

// A byte of one to three pairs, zeros above them.
fn part_of(n: u32) -> u8
    requires { (0 < n) × (n < 4) }
    ensures { result ≡ pairs n }
{
    PAIRS >> (8 - 2 * n)
}

// Lays bytes of four pairs from a place on.
fn fill_from(first: usize, bytes: &mut [u8])
    requires { first ≤ length bytes.old }
    ensures { bytes.new ≡ take first bytes.old ++ replicate (length bytes.old - first) 170 }
{
    bytes[first..].fill(PAIRS);
}

// Fills bytes with so many pairs of bits 10, the lowest in the last byte, zeros in front.
fn fill_pairs(n: u32, bytes: &mut [u8])
    requires { n ≤ 4 * length bytes.old }
    ensures { bytes.new ≡ in_bytes (length bytes.old) (pairs n) }
{
    let first = bytes.len() - (n / 4) as usize;
    digits::clear(bytes);
    fill_from(first, bytes);
    if n % 4 > 0 {
        bytes[first - 1] = part_of(n % 4);
    }
}

// Fills bytes with the number that is one more than so many pairs.
pub fn fill(n: u32, bytes: &mut [u8])
    requires { (0 < length bytes.old) × (n ≤ 4 * length bytes.old) }
    ensures { bytes.new ≡ in_bytes (length bytes.old) (suc (pairs n)) }
{
    fill_pairs(n, bytes);
    let last = bytes.len() - 1;
    bytes[last] += 1;
}
