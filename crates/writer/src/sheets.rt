ghost use Rattle.std.specs.Prelude.{◌≡◌, length};
ghost use Rattle.digits.specs.Scalar.{signed_scalar};
ghost use Rattle.sheet.specs.declared.Plan.TheVariants.{J, I};
ghost use Rattle.written.specs.Enough.{Enough, card_enough, gateway_enough};
ghost use Rattle.writer.specs.Call.{number, SheetPromised, j_question, j_answer, j_buffer, i_question, i_answer, i_buffer, i_down_answer, i_down_buffer};

use crate::answer::Sheet;
use crate::plans::{plan_i_within, plan_j_within};
use crate::rows::{Down, Up};
use digits::{Card, Gateway, Machine, Missed, Scalar};

// The places of a row's digits: one more than the bits of a machine's longest scalar.
const CARD_PLACES: usize = 529;

const GATEWAY_PLACES: usize = 1025;

// The calls for the sheet of a named plan at a machine.
pub trait WriteSheet: Machine {
    // The sheet of plan J. Questions 1 and 3 are asked.
    fn plan_j(k: Scalar<'_>, l: Scalar<'_>, sheet: &mut [u8]) -> Result<Sheet, Missed>
        ensures answer { result ≡ j_answer Self.LIMITS k.entry.bytes.now k.entry.sign l.entry.bytes.now l.entry.sign (length sheet.old) }
        ensures buffer { sheet.new ≡ j_buffer Self.LIMITS k.entry.bytes.now k.entry.sign l.entry.bytes.now l.entry.sign sheet.old }
        ensures promised { SheetPromised Self.LIMITS J (signed_scalar k.entry.bytes.now k.entry.sign) (signed_scalar l.entry.bytes.now l.entry.sign) result sheet.new }
        ensures question { number result ≡ j_question Self.LIMITS k.entry.bytes.now l.entry.bytes.now (length sheet.old) };

    // The sheet of plan I with the windows m1 for P and m2 for Q. Questions 1, 2 and 3 are asked.
    fn plan_i(
        k: Scalar<'_>,
        l: Scalar<'_>,
        m1: u32,
        m2: u32,
        sheet: &mut [u8],
    ) -> Result<Sheet, Missed>
        ensures answer { result ≡ i_answer Self.LIMITS k.entry.bytes.now k.entry.sign l.entry.bytes.now l.entry.sign m1 m2 (length sheet.old) }
        ensures buffer { sheet.new ≡ i_buffer Self.LIMITS k.entry.bytes.now k.entry.sign l.entry.bytes.now l.entry.sign m1 m2 sheet.old }
        ensures promised { SheetPromised Self.LIMITS (I m1 m2) (signed_scalar k.entry.bytes.now k.entry.sign) (signed_scalar l.entry.bytes.now l.entry.sign) result sheet.new }
        ensures question { number result ≡ i_question Self.LIMITS k.entry.bytes.now l.entry.bytes.now m1 m2 (length sheet.old) };

    // The same from rows that are worked out from the top down. The same questions are asked.
    fn plan_i_down(
        k: Scalar<'_>,
        l: Scalar<'_>,
        m1: u32,
        m2: u32,
        sheet: &mut [u8],
    ) -> Result<Sheet, Missed>
        ensures answer { result ≡ i_down_answer Self.LIMITS k.entry.bytes.now k.entry.sign l.entry.bytes.now l.entry.sign m1 m2 (length sheet.old) }
        ensures buffer { sheet.new ≡ i_down_buffer Self.LIMITS k.entry.bytes.now k.entry.sign l.entry.bytes.now l.entry.sign m1 m2 sheet.old }
        ensures promised { SheetPromised Self.LIMITS (I m1 m2) (signed_scalar k.entry.bytes.now k.entry.sign) (signed_scalar l.entry.bytes.now l.entry.sign) result sheet.new }
        ensures question { number result ≡ i_question Self.LIMITS k.entry.bytes.now l.entry.bytes.now m1 m2 (length sheet.old) };

    // The limits are enough for every sheet of scalars that meet them.
    ghost enough: { Enough Self.LIMITS };
}

// The impls differ in the places alone. With these as a parameter of the trait, each generic function of the crates above would carry it too.
impl WriteSheet for Card {
    fn plan_j(k: Scalar<'_>, l: Scalar<'_>, sheet: &mut [u8]) -> Result<Sheet, Missed> {
        let mut p = [0; CARD_PLACES];
        let mut q = [0; CARD_PLACES];
        plan_j_within(Card::LIMITS, k, l, sheet, &mut p, &mut q)
    }

    #[tactic(auto, unfolding(crate::specs::Call::i_answer, crate::specs::Call::i_buffer, written::specs::Written::digits))]
    fn plan_i(
        k: Scalar<'_>,
        l: Scalar<'_>,
        m1: u32,
        m2: u32,
        sheet: &mut [u8],
    ) -> Result<Sheet, Missed> {
        let mut p = [0; CARD_PLACES];
        let mut q = [0; CARD_PLACES];
        plan_i_within::<Up>(Card::LIMITS, k, l, m1, m2, sheet, &mut p, &mut q)
    }

    #[tactic(auto, unfolding(crate::specs::Call::i_down_answer, crate::specs::Call::i_down_buffer))]
    fn plan_i_down(
        k: Scalar<'_>,
        l: Scalar<'_>,
        m1: u32,
        m2: u32,
        sheet: &mut [u8],
    ) -> Result<Sheet, Missed> {
        let mut p = [0; CARD_PLACES];
        let mut q = [0; CARD_PLACES];
        plan_i_within::<Down>(Card::LIMITS, k, l, m1, m2, sheet, &mut p, &mut q)
    }

    ghost enough = { card_enough };
}

impl WriteSheet for Gateway {
    fn plan_j(k: Scalar<'_>, l: Scalar<'_>, sheet: &mut [u8]) -> Result<Sheet, Missed> {
        let mut p = [0; GATEWAY_PLACES];
        let mut q = [0; GATEWAY_PLACES];
        plan_j_within(Gateway::LIMITS, k, l, sheet, &mut p, &mut q)
    }

    #[tactic(auto, unfolding(crate::specs::Call::i_answer, crate::specs::Call::i_buffer, written::specs::Written::digits))]
    fn plan_i(
        k: Scalar<'_>,
        l: Scalar<'_>,
        m1: u32,
        m2: u32,
        sheet: &mut [u8],
    ) -> Result<Sheet, Missed> {
        let mut p = [0; GATEWAY_PLACES];
        let mut q = [0; GATEWAY_PLACES];
        plan_i_within::<Up>(Gateway::LIMITS, k, l, m1, m2, sheet, &mut p, &mut q)
    }

    #[tactic(auto, unfolding(crate::specs::Call::i_down_answer, crate::specs::Call::i_down_buffer))]
    fn plan_i_down(
        k: Scalar<'_>,
        l: Scalar<'_>,
        m1: u32,
        m2: u32,
        sheet: &mut [u8],
    ) -> Result<Sheet, Missed> {
        let mut p = [0; GATEWAY_PLACES];
        let mut q = [0; GATEWAY_PLACES];
        plan_i_within::<Down>(Gateway::LIMITS, k, l, m1, m2, sheet, &mut p, &mut q)
    }

    ghost enough = { gateway_enough };
}
