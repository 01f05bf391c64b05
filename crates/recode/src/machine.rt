ghost use Rattle.std.specs.Prelude.{◌≡◌, length};
ghost use Rattle.digits.specs.Scalar.{signed_scalar};
ghost use Rattle.digits.specs.Two.{P, Q};
ghost use Rattle.recode.specs.Call.{number, row_question, row_answer, row_buffer, RowPromised, joint_question, joint_answer, joint_buffer, JointPromised};

use crate::answer::Written;
use crate::columns::joint_within;
use crate::rows::row_within;
use digits::{Card, Gateway, Machine, Missed, Scalar};

// The calls for a row and for a joint form at a machine. The arrays lent for the remainders have a byte more than its longest scalar: their
// sizes stand in each impl, since a size of an array cannot be told by the machine's limits.
pub trait Recode: Machine {
    // The row of a scalar with a sign for the window m: its digits, from place 0 on, in bytes of two's complement.
    fn row(scalar: Scalar<'_>, m: u32, digits: &mut [u8]) -> Result<Written, Missed>
        ensures answer { result ≡ row_answer Self.LIMITS scalar.entry.bytes.now scalar.entry.sign m (length digits.old) }
        ensures buffer { digits.new ≡ row_buffer Self.LIMITS scalar.entry.bytes.now scalar.entry.sign m digits.old }
        ensures promised { RowPromised m (signed_scalar scalar.entry.bytes.now scalar.entry.sign) result digits.new }
        ensures question { number result ≡ row_question Self.LIMITS scalar.entry.bytes.now m (length digits.old) };

    // The joint sparse form of two scalars with signs: the digits of each row, from place 0 on, in bytes of two's complement.
    fn joint(
        k: Scalar<'_>,
        l: Scalar<'_>,
        k_digits: &mut [u8],
        l_digits: &mut [u8],
    ) -> Result<Written, Missed>
        ensures answer { result ≡ joint_answer Self.LIMITS k.entry.bytes.now k.entry.sign l.entry.bytes.now l.entry.sign (length k_digits.old) (length l_digits.old) }
        ensures first { k_digits.new ≡ joint_buffer Self.LIMITS P k.entry.bytes.now k.entry.sign l.entry.bytes.now l.entry.sign k_digits.old l_digits.old }
        ensures second { l_digits.new ≡ joint_buffer Self.LIMITS Q k.entry.bytes.now k.entry.sign l.entry.bytes.now l.entry.sign k_digits.old l_digits.old }
        ensures promised { JointPromised (signed_scalar k.entry.bytes.now k.entry.sign) (signed_scalar l.entry.bytes.now l.entry.sign) result k_digits.new l_digits.new }
        ensures question { number result ≡ joint_question Self.LIMITS k.entry.bytes.now l.entry.bytes.now (length k_digits.old) (length l_digits.old) };
}

impl Recode for Card {
    fn row(scalar: Scalar<'_>, m: u32, digits: &mut [u8]) -> Result<Written, Missed> {
        row_within(Card::LIMITS, scalar, m, digits, &mut [0u8; 67])
    }

    fn joint(
        k: Scalar<'_>,
        l: Scalar<'_>,
        k_digits: &mut [u8],
        l_digits: &mut [u8],
    ) -> Result<Written, Missed> {
        joint_within(
            Card::LIMITS,
            k,
            l,
            k_digits,
            l_digits,
            &mut [0u8; 67],
            &mut [0u8; 67],
        )
    }
}

impl Recode for Gateway {
    fn row(scalar: Scalar<'_>, m: u32, digits: &mut [u8]) -> Result<Written, Missed> {
        row_within(Gateway::LIMITS, scalar, m, digits, &mut [0u8; 129])
    }

    fn joint(
        k: Scalar<'_>,
        l: Scalar<'_>,
        k_digits: &mut [u8],
        l_digits: &mut [u8],
    ) -> Result<Written, Missed> {
        joint_within(
            Gateway::LIMITS,
            k,
            l,
            k_digits,
            l_digits,
            &mut [0u8; 129],
            &mut [0u8; 129],
        )
    }
}
