ghost use Rattle.std.specs.Prelude.{◌≡◌, length};
ghost use Rattle.digits.specs.Limits.{gateway};
ghost use Rattle.digits.specs.Scalar.{signed_scalar};
ghost use Rattle.recode.specs.Call.{answer_with, buffer_with};
ghost use Rattle.writer.specs.Rows as Kinds;
ghost use Rattle.writer.specs.Rows.{row_by};

use digits::{Gateway, Missed, Scalar};
use recode::{Recode, Written};

// Which rows a plan I is written from.
pub trait Rows {
    ghost kind: { Kinds.Rows };

    // Writes the row of a scalar for the window m, by the gateway's limits, which are the widest.
    fn write(scalar: Scalar<'_>, m: u32, digits: &mut [u8]) -> Result<Written, Missed>
        ensures answer { result ≡ answer_with gateway scalar.entry.bytes.now m (row_by kind m (signed_scalar scalar.entry.bytes.now scalar.entry.sign)) (length digits.old) }
        ensures buffer { digits.new ≡ buffer_with gateway scalar.entry.bytes.now m (row_by kind m (signed_scalar scalar.entry.bytes.now scalar.entry.sign)) digits.old };
}

// 01's, from the bottom up.
pub struct Up;

// Those from the top down.
pub struct Down;

impl Rows for Up {
    ghost kind = { Kinds.Up };

    fn write(scalar: Scalar<'_>, m: u32, digits: &mut [u8]) -> Result<Written, Missed> {
        Gateway::row(scalar, m, digits)
    }
}

impl Rows for Down {
    ghost kind = { Kinds.Down };

    fn write(scalar: Scalar<'_>, m: u32, digits: &mut [u8]) -> Result<Written, Missed> {
        down::row_down::<Gateway>(scalar, m, digits)
    }
}
