ghost use Rattle.std.specs.Prelude.{◌≡◌, true, pos, ◌+ℤ◌, ◌-ℤ◌};
ghost use Rattle.digits.specs.Byte.{signed, byte_of};
ghost use Rattle.digits.specs.Integer.{up};
ghost use Rattle.digits.specs.Two.{P, Q, digit};
ghost use Rattle.packing.specs.Body.{column_of};
ghost use Rattle.packing.specs.Packing.{byte_of_column, column_of_byte, stores_digit};

// One more than the digit of a byte.
fn raised(digit: u8) -> u8
    requires { stores_digit digit ≡ true }
    ensures { result ≡ up (signed digit +ℤ pos 1) }
{
    digit.wrapping_add(1)
}

// The byte of the digit that is a number less one.
fn lowered(part: u8) -> u8
    ensures { result ≡ byte_of (pos part -ℤ pos 1) }
{
    part.wrapping_sub(1)
}

// The byte of the column of two digits.
#[tactic(auto, unfolding(crate::specs::Packing::byte_of_column))]
pub fn byte_of(k: u8, l: u8) -> u8
    requires { (stores_digit k ≡ true) × (stores_digit l ≡ true) }
    ensures { result ≡ byte_of_column (column_of k l) }
{
    3 * raised(k) + raised(l)
}

// The byte of the first digit of a byte's column.
#[tactic(auto, unfolding(crate::specs::Packing::column_of_byte))]
pub fn first_of(byte: u8) -> u8
    ensures { result ≡ byte_of (digit (column_of_byte byte) P) }
{
    lowered(byte / 3)
}

// The byte of the second one.
#[tactic(auto, unfolding(crate::specs::Packing::column_of_byte))]
pub fn second_of(byte: u8) -> u8
    ensures { result ≡ byte_of (digit (column_of_byte byte) Q) }
{
    lowered(byte % 3)
}
