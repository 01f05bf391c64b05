ghost use Rattle.std.specs.Prelude.{◌≡◌};
ghost use Rattle.digits.specs.Byte.{byte_of};

// The byte of a digit, in two's complement.
pub fn byte_of(digit: i8) -> u8
    ensures { result ≡ byte_of digit }
{
    digit.cast_unsigned()
}
