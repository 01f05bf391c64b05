ghost use Rattle.std.specs.Prelude.{◌≡◌, true, false, ◌+◌, ◌-◌, ◌*◌, ◌/◌, ◌^◌, ◌<◌, ◌≤◌, pos, length, replicate};
ghost use Rattle.digits.specs.Limits.{gateway};
ghost use Rattle.digits.specs.Scalar.{little, scalar, signed_scalar, bit_length};
ghost use Rattle.forms.specs.Row.{row};
ghost use Rattle.recode.specs.Call.{number, row_size, row_question, row_answer, row_buffer, RowPromised, filled};

use crate::answer::Written;
use crate::digit::DigitRule;
use crate::low::Low;
use digits::{Limits, Missed, Scalar, Window};

// Whether nothing is left: no low bits, and none of the bytes that are in use.
pub fn ended(low: Low, used: usize) -> bool
    ensures { (result ≡ true → (low.low ≡ 0) × (used ≤ low.at)) × (result ≡ false → low.low ≡ 0 → low.at < used) }
{
    low.low == 0 && used <= low.at
}

// Writes the row of the bytes' number into places that hold 0. The top byte is not 0. Zeros are skipped, so every digit that is stored
// counts. A `loop`, since no iterator knows how many places a turn takes.
fn write_digits(bytes: &[u8], rule: DigitRule, out: &mut [u8]) -> Written
    requires trimmed { length bytes.now ≡ (bit_length (little bytes.now) + 7) / 8 }
    requires room { (out.old ≡ replicate (length out.old) 0) × (length (row rule.m (pos (little bytes.now))) ≤ length out.old) }
    ensures answer { result ≡ row_size (row rule.m (pos (little bytes.now))) }
    ensures buffer { out.new ≡ filled (row rule.m (pos (little bytes.now))) out.old }
{
    let mut low = Low::new();
    let mut place = 0;
    let mut weight = 0;
    loop {
        let full = low.filled(bytes);
        if ended(full, bytes.len()) {
            return Written {
                length: place,
                weight,
            };
        }
        // Where no bit is set, all are skipped: on a path of its own, so that `zeros` asks for nothing.
        if full.low == 0 {
            place += full.bits as usize;
            low = full.shifted(full.bits);
            continue;
        }
        let zeros = full.zeros();
        let odd = full.shifted(zeros);
        place += zeros as usize;
        if odd.bits < 6 {
            low = odd;
            continue;
        }
        let digit = rule.digit_of(odd.lowest());
        out[place] = digits::byte_of(digit as i8);
        low = odd.less(digit);
        place += 1;
        weight += 1;
    }
}

// The bit length of a scalar, as one number. (That of down is a number's, and shares nothing with this but the name.)
pub fn bits_of(bytes: &[u8]) -> usize
    requires { length bytes.now ≤ gateway.bytes }
    ensures { result ≡ bit_length (scalar bytes.now) }
{
    let length = digits::bit_length(bytes);
    8 * length.below + length.top as usize
}

// Writes the row of a scalar's bytes for a window and zeros above it. Of the buffer only the places up to the bit length plus one
// are lent to the digits. The remainder is lent as zeros and takes the bytes.
fn write_row(bytes: &[u8], window: Window, out: &mut [u8], remainder: &mut [u8]) -> Written
    requires room { (length bytes.now ≤ gateway.bytes) × (8 * length bytes.now + 1 ≤ length out.old) }
    requires cleared { (length bytes.now ≤ length remainder.old) × (remainder.old ≡ replicate (length remainder.old) 0) }
    ensures answer { result ≡ row_size (row window (pos (scalar bytes.now))) }
    ensures buffer { out.new ≡ filled (row window (pos (scalar bytes.now))) out.old }
{
    let bits = bits_of(bytes);
    let used = (bits + 7) / 8;
    let places = bits + 1;
    crate::buffer::copy_into(bytes, remainder);
    digits::clear(out);
    let rule = DigitRule::new(window);
    write_digits(&remainder[..used], rule, &mut out[..places])
}

// The row call by any limits up to the gateway's, with a remainder of more bytes than they allow.
#[tactic(auto, unfolding(crate::specs::Call::answer_with, crate::specs::Call::buffer_with))]
pub fn row_within(
    limits: Limits,
    scalar: Scalar<'_>,
    m: u32,
    digits: &mut [u8],
    remainder: &mut [u8],
) -> Result<Written, Missed>
    requires { (limits.bytes ≤ gateway.bytes) × ((limits.bytes < length remainder.old) × (remainder.old ≡ replicate (length remainder.old) 0)) }
    ensures answer { result ≡ row_answer limits scalar.entry.bytes.now scalar.entry.sign m (length digits.old) }
    ensures buffer { digits.new ≡ row_buffer limits scalar.entry.bytes.now scalar.entry.sign m digits.old }
    ensures promised { RowPromised m (signed_scalar scalar.entry.bytes.now scalar.entry.sign) result digits.new }
    ensures question { number result ≡ row_question limits scalar.entry.bytes.now m (length digits.old) }
{
    scalar.check(limits)?;
    let window = Window::try_from(m)?;
    let places = digits::places_for(scalar.bytes.len());
    digits::check_room(places, digits.len())?;
    let written = write_row(scalar.bytes, window, digits, remainder);
    crate::sign::give_sign(digits, written.length, scalar.sign);
    Ok(written)
}
