ghost use Rattle.std.specs.Prelude.{◌≡◌, true, false, ◌⊎◌, ◌+◌, ◌*◌, ◌/◌, ◌%◌, ◌^◌, ◌<◌, ◌≤◌, max, pos, length, replicate};
ghost use Rattle.digits.specs.Column;
ghost use Rattle.digits.specs.Limits.{gateway};
ghost use Rattle.digits.specs.Scalar.{little, scalar, signed_scalar, bit_length};
ghost use Rattle.digits.specs.Two.{P, Q, two};
ghost use Rattle.forms.specs.Joint;
ghost use Rattle.recode.specs.Body.Table.{DigitTable};
ghost use Rattle.recode.specs.Call.{number, columns_size, joint_question, joint_answer, joint_buffer, JointPromised, filled};

use crate::answer::Written;
use crate::low::Low;
use crate::rows::{bits_of, ended};
use digits::{Limits, Missed, Scalar};

// The joint digits: a line for each remainder by eight of a number, an entry for each that the other number can have.
#[rattlefmt::skip]
const DIGITS: [i8; 64] = [
// beside 0   1   2   3   4   5   6   7
          0,  0,  0,  0,  0,  0,  0,  0, // of 0
          1,  1,  1,  1,  1,  1,  1,  1, // of 1
          0,  0,  0,  0,  0,  0,  0,  0, // of 2
         -1, -1,  1, -1, -1, -1,  1, -1, // of 3: the sign turns beside 2 and 6
          0,  0,  0,  0,  0,  0,  0,  0, // of 4
          1,  1, -1,  1,  1,  1, -1,  1, // of 5: the sign turns beside 2 and 6
          0,  0,  0,  0,  0,  0,  0,  0, // of 6
         -1, -1, -1, -1, -1, -1, -1, -1, // of 7
];

// The table of the joint digits. A constant array is laid out anew wherever it is read, so the columns share one.
fn digit_table() -> [i8; 64]
    ensures { DigitTable result }
{
    DIGITS
}

// Where the table has the digit of x beside y: three low bits of each, joined.
fn index_of(x: u16, y: u16) -> usize
    ensures { result ≡ 8 * (x % 8) + y % 8 }
{
    ((x as usize & 7) << 3) | (y as usize & 7)
}

// The digit of x beside y in a joint column, from the table.
fn joint_digit(table: &[i8; 64], x: u16, y: u16) -> i16
    requires { DigitTable table.now }
    ensures { result ≡ Joint.digit (pos x) (pos y) }
{
    table[index_of(x, y)] as i16
}

// Whether nothing is left of either number.
fn both_ended(k: Low, l: Low, k_used: usize, l_used: usize) -> bool
    ensures { (result ≡ true → ((k.low ≡ 0) × (k_used ≤ k.at)) × ((l.low ≡ 0) × (l_used ≤ l.at))) × (result ≡ false → (k.low ≡ 0 → k.at < k_used) ⊎ (l.low ≡ 0 → l.at < l_used)) }
{
    ended(k, k_used) && ended(l, l_used)
}

// How many zeros stand below the lowest one of either number: all of the low bits where both are 0.
fn both_zeros(k: Low, l: Low) -> u32
    requires { (k.bits ≡ l.bits) × (16 ≤ k.bits) }
    ensures zeros { (result ≤ k.bits) × ((k.low ≡ 2 ^ result * (k.low / 2 ^ result)) × (l.low ≡ 2 ^ result * (l.low / 2 ^ result))) }
    ensures ended { result < k.bits → 1 ≤ k.low / 2 ^ result % 2 + l.low / 2 ^ result % 2 }
{
    crate::bits::zeros_of(k.low | l.low, k.bits)
}

// Writes the joint columns of two numbers' bytes, of which the top ones are not 0, into places that hold 0. Zero columns are skipped, so
// every column that is stored counts. A `loop`, since no iterator knows how many places a turn takes.
fn write_columns(k: &[u8], l: &[u8], k_out: &mut [u8], l_out: &mut [u8]) -> Written
    requires trimmed { (length k.now ≡ (bit_length (little k.now) + 7) / 8) × (length l.now ≡ (bit_length (little l.now) + 7) / 8) }
    requires cleared { (k_out.old ≡ replicate (length k_out.old) 0) × (l_out.old ≡ replicate (length k_out.old) 0) }
    requires room { length (Joint.joint (pos (little k.now)) (pos (little l.now))) ≤ length k_out.old }
    ensures answer { result ≡ columns_size (Joint.joint (pos (little k.now)) (pos (little l.now))) }
    ensures first { k_out.new ≡ filled (Column.row two P (Joint.joint (pos (little k.now)) (pos (little l.now)))) k_out.old }
    ensures second { l_out.new ≡ filled (Column.row two Q (Joint.joint (pos (little k.now)) (pos (little l.now)))) l_out.old }
{
    let mut k_low = Low::new();
    let mut l_low = Low::new();
    let mut place = 0;
    let mut weight = 0;
    let table = digit_table();
    loop {
        let k_full = k_low.filled(k);
        let l_full = l_low.filled(l);
        if both_ended(k_full, l_full, k.len(), l.len()) {
            return Written {
                length: place,
                weight,
            };
        }
        let zeros = both_zeros(k_full, l_full);
        let k_odd = k_full.shifted(zeros);
        let l_odd = l_full.shifted(zeros);
        place += zeros as usize;
        if k_odd.bits < 3 {
            k_low = k_odd;
            l_low = l_odd;
            continue;
        }
        let x = k_odd.lowest();
        let y = l_odd.lowest();
        let k_digit = joint_digit(&table, x, y);
        let l_digit = joint_digit(&table, y, x);
        k_low = k_odd.less(k_digit);
        l_low = l_odd.less(l_digit);
        k_out[place] = digits::byte_of(k_digit as i8);
        l_out[place] = digits::byte_of(l_digit as i8);
        place += 1;
        weight += 1;
    }
}

// Writes the joint columns of two scalars' bytes, a row into each buffer, and zeros above them. Of each buffer only the places up to
// the longer bit length plus one are lent to the digits. The remainders are lent as zeros and take the bytes.
fn write_joint(
    k: &[u8],
    l: &[u8],
    k_out: &mut [u8],
    l_out: &mut [u8],
    k_remainder: &mut [u8],
    l_remainder: &mut [u8],
) -> Written
    requires scalars { (length k.now ≤ gateway.bytes) × (length l.now ≤ gateway.bytes) }
    requires room { (8 * max (length k.now) (length l.now) + 1 ≤ length k_out.old) × (8 * max (length k.now) (length l.now) + 1 ≤ length l_out.old) }
    requires first_remainder { (length k.now ≤ length k_remainder.old) × (k_remainder.old ≡ replicate (length k_remainder.old) 0) }
    requires second_remainder { (length l.now ≤ length l_remainder.old) × (l_remainder.old ≡ replicate (length l_remainder.old) 0) }
    ensures answer { result ≡ columns_size (Joint.joint (pos (scalar k.now)) (pos (scalar l.now))) }
    ensures first { k_out.new ≡ filled (Column.row two P (Joint.joint (pos (scalar k.now)) (pos (scalar l.now)))) k_out.old }
    ensures second { l_out.new ≡ filled (Column.row two Q (Joint.joint (pos (scalar k.now)) (pos (scalar l.now)))) l_out.old }
{
    let k_bits = bits_of(k);
    let l_bits = bits_of(l);
    let places = k_bits.max(l_bits) + 1;
    crate::buffer::copy_into(k, k_remainder);
    crate::buffer::copy_into(l, l_remainder);
    digits::clear(k_out);
    digits::clear(l_out);
    let k_used = (k_bits + 7) / 8;
    let l_used = (l_bits + 7) / 8;
    write_columns(
        &k_remainder[..k_used],
        &l_remainder[..l_used],
        &mut k_out[..places],
        &mut l_out[..places],
    )
}

// The joint call by any limits up to the gateway's, with remainders of more bytes than they allow.
#[tactic(auto, unfolding(crate::specs::Call::joint_answer, crate::specs::Call::joint_buffer))]
pub fn joint_within(
    limits: Limits,
    k: Scalar<'_>,
    l: Scalar<'_>,
    k_digits: &mut [u8],
    l_digits: &mut [u8],
    k_remainder: &mut [u8],
    l_remainder: &mut [u8],
) -> Result<Written, Missed>
    requires limits { limits.bytes ≤ gateway.bytes }
    requires first_remainder { (limits.bytes < length k_remainder.old) × (k_remainder.old ≡ replicate (length k_remainder.old) 0) }
    requires second_remainder { (limits.bytes < length l_remainder.old) × (l_remainder.old ≡ replicate (length l_remainder.old) 0) }
    ensures answer { result ≡ joint_answer limits k.entry.bytes.now k.entry.sign l.entry.bytes.now l.entry.sign (length k_digits.old) (length l_digits.old) }
    ensures first { k_digits.new ≡ joint_buffer limits P k.entry.bytes.now k.entry.sign l.entry.bytes.now l.entry.sign k_digits.old l_digits.old }
    ensures second { l_digits.new ≡ joint_buffer limits Q k.entry.bytes.now k.entry.sign l.entry.bytes.now l.entry.sign k_digits.old l_digits.old }
    ensures promised { JointPromised (signed_scalar k.entry.bytes.now k.entry.sign) (signed_scalar l.entry.bytes.now l.entry.sign) result k_digits.new l_digits.new }
    ensures question { number result ≡ joint_question limits k.entry.bytes.now l.entry.bytes.now (length k_digits.old) (length l_digits.old) }
{
    digits::check_scalars(k, l, limits)?;
    let places = digits::places_for(k.bytes.len().max(l.bytes.len()));
    digits::check_room(places, k_digits.len())?;
    digits::check_room(places, l_digits.len())?;
    let written = write_joint(
        k.bytes,
        l.bytes,
        k_digits,
        l_digits,
        k_remainder,
        l_remainder,
    );
    crate::sign::give_sign(k_digits, written.length, k.sign);
    crate::sign::give_sign(l_digits, written.length, l.sign);
    Ok(written)
}
