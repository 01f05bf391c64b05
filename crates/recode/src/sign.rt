ghost use Rattle.std.specs.Prelude.{◌≡◌, map, ◌≤◌, length};
ghost use Rattle.digits.specs.Byte.{turned};
ghost use Rattle.recode.specs.Body.Sign.{signed_below};

// Turns the sign of every digit of a row.
fn negate(row: &mut [u8])
    ensures { row.new ≡ map turned row.old }
{
    for byte in row.iter_mut() {
        *byte = byte.wrapping_neg();
    }
}

// Gives the digits at the first places a sign: 0 is plus and leaves them, any other is minus and turns them.
pub fn give_sign(row: &mut [u8], places: usize, sign: u32)
    requires { places ≤ length row.old }
    ensures { row.new ≡ signed_below sign places row.old }
{
    if sign != 0 {
        negate(&mut row[..places]);
    }
}
