ghost use Rattle.std.specs.Prelude.{◌≡◌, length};
ghost use Rattle.digits.specs.Limits.{card};
ghost use Rattle.digits.specs.Two.{P, Q};
ghost use Rattle.recode.specs.Call.{row_answer, row_buffer, joint_answer, joint_buffer};
ghost use Rattle.down.specs.Call.{down_answer, down_buffer};
ghost use Rattle.codes.specs.Call.{codes_answer, codes_digits, codes_buffer};
ghost use Rattle.writer.specs.Call.{j_answer, j_buffer, i_answer, i_buffer, i_down_answer, i_down_buffer};
ghost use Rattle.chooser.specs.Call.{cheapest_answer, cheapest_buffer};
ghost use Rattle.chooser.specs.Next.{next_answer};
ghost use Rattle.dearest.specs.Call.{dearest_answer, dearest_buffer};
ghost use Rattle.packing.specs.Call.{pack_answer, pack_buffer, unpack_answer, unpack_buffer};
ghost use Rattle.sheet.specs.Answer.{answer};
ghost use Rattle.host.specs.Told.{told_recoded, told_sheet, told_next, told_dearest, told_judgement, told_packing};

use crate::machine::Tells;
use crate::told::Told;
use digits::Scalar;
use recode::Recode;
use survey::Surveyor;
use writer::WriteSheet;

// In these calls a scalar and its sign stand apart, as C passes them.

// The row of a scalar for the window m.
#[tactic(auto, using(crate::specs::Told::Parts::row_fits))]
pub fn row<M: Recode + Tells>(scalar: &[u8], sign: u32, m: u32, digits: &mut [u8]) -> u64
    ensures answer { result ≡ told_recoded (row_answer M.LIMITS scalar.now sign m (length digits.old)) }
    ensures buffer { digits.new ≡ row_buffer M.LIMITS scalar.now sign m digits.old }
{
    M::row(Scalar::new(scalar, sign), m, digits).to_bits()
}

// The row of a scalar for the window m, from the top down.
#[tactic(auto, using(crate::specs::Told::Parts::down_fits))]
pub fn row_down<M: Tells>(scalar: &[u8], sign: u32, m: u32, digits: &mut [u8]) -> u64
    ensures answer { result ≡ told_recoded (down_answer M.LIMITS scalar.now sign m (length digits.old)) }
    ensures buffer { digits.new ≡ down_buffer M.LIMITS scalar.now sign m digits.old }
{
    down::row_down::<M>(Scalar::new(scalar, sign), m, digits).to_bits()
}

// The joint sparse form of two scalars.
#[tactic(auto, using(crate::specs::Told::Parts::joint_fits))]
pub fn joint<M: Recode + Tells>(
    k: &[u8],
    k_sign: u32,
    l: &[u8],
    l_sign: u32,
    k_digits: &mut [u8],
    l_digits: &mut [u8],
) -> u64
    ensures answer { result ≡ told_recoded (joint_answer M.LIMITS k.now k_sign l.now l_sign (length k_digits.old) (length l_digits.old)) }
    ensures first { k_digits.new ≡ joint_buffer M.LIMITS P k.now k_sign l.now l_sign k_digits.old l_digits.old }
    ensures second { l_digits.new ≡ joint_buffer M.LIMITS Q k.now k_sign l.now l_sign k_digits.old l_digits.old }
{
    let k = Scalar::new(k, k_sign);
    let l = Scalar::new(l, l_sign);
    M::joint(k, l, k_digits, l_digits).to_bits()
}

// The joint sparse form of two scalars, and beside each row the codes of its digits.
#[tactic(auto, using(crate::specs::Told::Parts::codes_fits))]
pub fn joint_codes<M: Recode + Tells>(
    k: &[u8],
    k_sign: u32,
    l: &[u8],
    l_sign: u32,
    k_digits: &mut [u8],
    l_digits: &mut [u8],
    k_codes: &mut [u8],
    l_codes: &mut [u8],
) -> u64
    ensures answer { result ≡ told_recoded (codes_answer M.LIMITS k.now k_sign l.now l_sign (length k_digits.old) (length l_digits.old) (length k_codes.old) (length l_codes.old)) }
    ensures first { k_digits.new ≡ codes_digits M.LIMITS P k.now k_sign l.now l_sign k_digits.old l_digits.old k_codes.old l_codes.old }
    ensures second { l_digits.new ≡ codes_digits M.LIMITS Q k.now k_sign l.now l_sign k_digits.old l_digits.old k_codes.old l_codes.old }
    ensures first_codes { k_codes.new ≡ codes_buffer M.LIMITS P k.now k_sign l.now l_sign k_digits.old l_digits.old k_codes.old l_codes.old }
    ensures second_codes { l_codes.new ≡ codes_buffer M.LIMITS Q k.now k_sign l.now l_sign k_digits.old l_digits.old k_codes.old l_codes.old }
{
    codes::joint_codes::<M>(
        Scalar::new(k, k_sign),
        Scalar::new(l, l_sign),
        k_digits,
        l_digits,
        k_codes,
        l_codes,
    )
    .to_bits()
}

// The sheet of plan J.
#[tactic(auto, using(crate::specs::Told::Parts::j_fits))]
pub fn plan_j<M: WriteSheet + Tells>(
    k: &[u8],
    k_sign: u32,
    l: &[u8],
    l_sign: u32,
    sheet: &mut [u8],
) -> u64
    ensures answer { result ≡ told_sheet (j_answer M.LIMITS k.now k_sign l.now l_sign (length sheet.old)) }
    ensures buffer { sheet.new ≡ j_buffer M.LIMITS k.now k_sign l.now l_sign sheet.old }
{
    M::plan_j(Scalar::new(k, k_sign), Scalar::new(l, l_sign), sheet).to_bits()
}

// The sheet of plan I with the windows m1 for P and m2 for Q.
#[tactic(auto, using(crate::specs::Told::Parts::i_fits))]
pub fn plan_i<M: WriteSheet + Tells>(
    k: &[u8],
    k_sign: u32,
    l: &[u8],
    l_sign: u32,
    m1: u32,
    m2: u32,
    sheet: &mut [u8],
) -> u64
    ensures answer { result ≡ told_sheet (i_answer M.LIMITS k.now k_sign l.now l_sign m1 m2 (length sheet.old)) }
    ensures buffer { sheet.new ≡ i_buffer M.LIMITS k.now k_sign l.now l_sign m1 m2 sheet.old }
{
    let k = Scalar::new(k, k_sign);
    let l = Scalar::new(l, l_sign);
    M::plan_i(k, l, m1, m2, sheet).to_bits()
}

// The same from rows that are worked out from the top down.
#[tactic(auto, using(crate::specs::Told::Parts::i_down_fits))]
pub fn plan_i_down<M: WriteSheet + Tells>(
    k: &[u8],
    k_sign: u32,
    l: &[u8],
    l_sign: u32,
    m1: u32,
    m2: u32,
    sheet: &mut [u8],
) -> u64
    ensures answer { result ≡ told_sheet (i_down_answer M.LIMITS k.now k_sign l.now l_sign m1 m2 (length sheet.old)) }
    ensures buffer { sheet.new ≡ i_down_buffer M.LIMITS k.now k_sign l.now l_sign m1 m2 sheet.old }
{
    let k = Scalar::new(k, k_sign);
    let l = Scalar::new(l, l_sign);
    M::plan_i_down(k, l, m1, m2, sheet).to_bits()
}

// The cheapest sheet for k and l that needs no more slots than the limit.
#[tactic(auto, using(crate::specs::Told::Parts::cheapest_fits))]
pub fn cheapest<M: WriteSheet + Tells>(
    k: &[u8],
    k_sign: u32,
    l: &[u8],
    l_sign: u32,
    limit: u32,
    sheet: &mut [u8],
) -> u64
    ensures answer { result ≡ told_sheet (cheapest_answer M.LIMITS k.now k_sign l.now l_sign limit (length sheet.old)) }
    ensures buffer { sheet.new ≡ cheapest_buffer M.LIMITS k.now k_sign l.now l_sign limit sheet.old }
{
    chooser::cheapest::<M>(Scalar::new(k, k_sign), Scalar::new(l, l_sign), limit, sheet).to_bits()
}

// The smallest larger limit, up to 31, at which the cheapest sheet has fewer additions, at the card.
#[tactic(auto, using(crate::specs::Told::Parts::next_fits))]
pub fn next_limit(k: &[u8], k_sign: u32, l: &[u8], l_sign: u32, limit: u32) -> u64
    ensures answer { result ≡ told_next (next_answer card k.now k_sign l.now l_sign limit) }
{
    chooser::next_limit(Scalar::new(k, k_sign), Scalar::new(l, l_sign), limit).to_bits()
}

// The smallest scalar of so many bits whose row with window 1 has the most digits that are not 0.
pub fn dearest(bits: u32, scalar: &mut [u8]) -> u64
    ensures answer { result ≡ told_dearest (dearest_answer bits (length scalar.old)) }
    ensures buffer { scalar.new ≡ dearest_buffer bits scalar.old }
{
    dearest::dearest(bits, scalar).to_bits()
}

// Reads a sheet: accepted, or the first question that it misses.
#[tactic(auto, using(crate::specs::Told::Parts::read_fits))]
pub fn read<M: Surveyor<LIMBS> + Tells, const LIMBS: usize>(sheet: &[u8]) -> u64
    ensures answer { result ≡ told_judgement (answer M.LIMITS sheet.now) }
{
    reader::read::<M, LIMBS>(sheet).to_bits()
}

// So many columns of two rows, a byte for each.
pub fn pack(columns: usize, k_digits: &[u8], l_digits: &[u8], packed: &mut [u8]) -> u64
    ensures answer { result ≡ told_packing (pack_answer columns k_digits.now l_digits.now (length packed.old)) }
    ensures buffer { packed.new ≡ pack_buffer columns k_digits.now l_digits.now packed.old }
{
    packing::pack(columns, k_digits, l_digits, packed).to_bits()
}

// The two rows of so many bytes.
pub fn unpack(columns: usize, packed: &[u8], k_digits: &mut [u8], l_digits: &mut [u8]) -> u64
    ensures answer { result ≡ told_packing (unpack_answer columns packed.now (length k_digits.old) (length l_digits.old)) }
    ensures first { k_digits.new ≡ unpack_buffer P columns packed.now k_digits.old l_digits.old }
    ensures second { l_digits.new ≡ unpack_buffer Q columns packed.now k_digits.old l_digits.old }
{
    packing::unpack(columns, packed, k_digits, l_digits).to_bits()
}
