ghost use Rattle.std.specs.Prelude.{◌≡◌, ◌≤◌, length, get_or};
ghost use Rattle.codes.specs.Body.{byte_code, byte_codes};
ghost use Rattle.codes.specs.Call.{coded};

// The code of a digit's byte, by that of the row's next digit: the sign is turned exactly where the next is not 0 either.
fn code_of(digit: u8, next: u8) -> u8
    ensures { result ≡ byte_code digit next }
{
    if digit == 0 {
        return 0;
    }
    if next == 0 { 1 } else { 2 }
}

// Writes the codes of a row's digits at so many places, and zeros above them. The next digit above these places is 0. By index: pairs of
// `windows(2)` would leave the last place as well, and writing through a `zip` leaves `returns` open.
pub fn write_codes(digits: &[u8], places: usize, codes: &mut [u8])
    requires { (places ≤ length digits.now) × ((places ≤ length codes.old) × (get_or digits.now places 0 ≡ 0)) }
    ensures { codes.new ≡ coded (byte_codes digits.now places) codes.old }
{
    digits::clear(codes);
    for next in 1..places {
        codes[next - 1] = code_of(digits[next - 1], digits[next]);
    }
    if 0 < places {
        codes[places - 1] = code_of(digits[places - 1], 0);
    }
}
