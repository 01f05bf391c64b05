ghost use Rattle.std.specs.Prelude.{◌≡◌, length};
ghost use Rattle.digits.specs.Limits.{card};
ghost use Rattle.digits.specs.Two.{P, Q};
ghost use Rattle.recode.specs.Call.{row_answer, row_buffer, joint_answer, joint_buffer};
ghost use Rattle.down.specs.Call.{down_answer, down_buffer};
ghost use Rattle.codes.specs.Call.{codes_answer, codes_digits, codes_buffer};
ghost use Rattle.writer.specs.Call.{j_answer, j_buffer, i_answer, i_buffer, i_down_answer, i_down_buffer};
ghost use Rattle.chooser.specs.Call.{cheapest_answer, cheapest_buffer};
ghost use Rattle.chooser.specs.Next.{next_answer};
ghost use Rattle.dearest.specs.Call.{dearest_answer, dearest_buffer};
ghost use Rattle.packing.specs.Call.{pack_answer, pack_buffer, unpack_answer, unpack_buffer};
ghost use Rattle.sheet.specs.Answer.{answer};
ghost use Rattle.host.specs.Told.{told_recoded, told_sheet, told_next, told_dearest, told_judgement, told_packing};

use digits::Card;

// The row of a scalar for the window m.
#[unsafe(no_mangle)]
pub extern "C" fn sheets_row(scalar: &[u8], sign: u32, m: u32, digits: &mut [u8]) -> u64
    ensures answer { result ≡ told_recoded (row_answer card scalar.now sign m (length digits.old)) }
    ensures buffer { digits.new ≡ row_buffer card scalar.now sign m digits.old }
{
    host::row::<Card>(scalar, sign, m, digits)
}

// The row of a scalar for the window m, from the top down.
#[unsafe(no_mangle)]
pub extern "C" fn sheets_row_down(scalar: &[u8], sign: u32, m: u32, digits: &mut [u8]) -> u64
    ensures answer { result ≡ told_recoded (down_answer card scalar.now sign m (length digits.old)) }
    ensures buffer { digits.new ≡ down_buffer card scalar.now sign m digits.old }
{
    host::row_down::<Card>(scalar, sign, m, digits)
}

// The joint sparse form of two scalars.
#[unsafe(no_mangle)]
pub extern "C" fn sheets_joint(
    k: &[u8],
    k_sign: u32,
    l: &[u8],
    l_sign: u32,
    k_digits: &mut [u8],
    l_digits: &mut [u8],
) -> u64
    ensures answer { result ≡ told_recoded (joint_answer card k.now k_sign l.now l_sign (length k_digits.old) (length l_digits.old)) }
    ensures first { k_digits.new ≡ joint_buffer card P k.now k_sign l.now l_sign k_digits.old l_digits.old }
    ensures second { l_digits.new ≡ joint_buffer card Q k.now k_sign l.now l_sign k_digits.old l_digits.old }
{
    host::joint::<Card>(k, k_sign, l, l_sign, k_digits, l_digits)
}

// The joint sparse form of two scalars, and beside each row the codes of its digits.
#[unsafe(no_mangle)]
pub extern "C" fn sheets_joint_codes(
    k: &[u8],
    k_sign: u32,
    l: &[u8],
    l_sign: u32,
    k_digits: &mut [u8],
    l_digits: &mut [u8],
    k_codes: &mut [u8],
    l_codes: &mut [u8],
) -> u64
    ensures answer { result ≡ told_recoded (codes_answer card k.now k_sign l.now l_sign (length k_digits.old) (length l_digits.old) (length k_codes.old) (length l_codes.old)) }
    ensures first { k_digits.new ≡ codes_digits card P k.now k_sign l.now l_sign k_digits.old l_digits.old k_codes.old l_codes.old }
    ensures second { l_digits.new ≡ codes_digits card Q k.now k_sign l.now l_sign k_digits.old l_digits.old k_codes.old l_codes.old }
    ensures first_codes { k_codes.new ≡ codes_buffer card P k.now k_sign l.now l_sign k_digits.old l_digits.old k_codes.old l_codes.old }
    ensures second_codes { l_codes.new ≡ codes_buffer card Q k.now k_sign l.now l_sign k_digits.old l_digits.old k_codes.old l_codes.old }
{
    host::joint_codes::<Card>(k, k_sign, l, l_sign, k_digits, l_digits, k_codes, l_codes)
}

// The sheet of plan J.
#[unsafe(no_mangle)]
pub extern "C" fn sheets_plan_j(
    k: &[u8],
    k_sign: u32,
    l: &[u8],
    l_sign: u32,
    sheet: &mut [u8],
) -> u64
    ensures answer { result ≡ told_sheet (j_answer card k.now k_sign l.now l_sign (length sheet.old)) }
    ensures buffer { sheet.new ≡ j_buffer card k.now k_sign l.now l_sign sheet.old }
{
    host::plan_j::<Card>(k, k_sign, l, l_sign, sheet)
}

// The sheet of plan I with the windows m1 for P and m2 for Q.
#[unsafe(no_mangle)]
pub extern "C" fn sheets_plan_i(
    k: &[u8],
    k_sign: u32,
    l: &[u8],
    l_sign: u32,
    m1: u32,
    m2: u32,
    sheet: &mut [u8],
) -> u64
    ensures answer { result ≡ told_sheet (i_answer card k.now k_sign l.now l_sign m1 m2 (length sheet.old)) }
    ensures buffer { sheet.new ≡ i_buffer card k.now k_sign l.now l_sign m1 m2 sheet.old }
{
    host::plan_i::<Card>(k, k_sign, l, l_sign, m1, m2, sheet)
}

// The same from rows that are worked out from the top down.
#[unsafe(no_mangle)]
pub extern "C" fn sheets_plan_i_down(
    k: &[u8],
    k_sign: u32,
    l: &[u8],
    l_sign: u32,
    m1: u32,
    m2: u32,
    sheet: &mut [u8],
) -> u64
    ensures answer { result ≡ told_sheet (i_down_answer card k.now k_sign l.now l_sign m1 m2 (length sheet.old)) }
    ensures buffer { sheet.new ≡ i_down_buffer card k.now k_sign l.now l_sign m1 m2 sheet.old }
{
    host::plan_i_down::<Card>(k, k_sign, l, l_sign, m1, m2, sheet)
}

// The cheapest sheet for k and l that needs no more slots than the limit.
#[unsafe(no_mangle)]
pub extern "C" fn sheets_cheapest(
    k: &[u8],
    k_sign: u32,
    l: &[u8],
    l_sign: u32,
    limit: u32,
    sheet: &mut [u8],
) -> u64
    ensures answer { result ≡ told_sheet (cheapest_answer card k.now k_sign l.now l_sign limit (length sheet.old)) }
    ensures buffer { sheet.new ≡ cheapest_buffer card k.now k_sign l.now l_sign limit sheet.old }
{
    host::cheapest::<Card>(k, k_sign, l, l_sign, limit, sheet)
}

// The smallest larger limit, up to 31, at which the cheapest sheet has fewer additions.
#[unsafe(no_mangle)]
pub extern "C" fn sheets_next_limit(k: &[u8], k_sign: u32, l: &[u8], l_sign: u32, limit: u32) -> u64
    ensures answer { result ≡ told_next (next_answer card k.now k_sign l.now l_sign limit) }
{
    host::next_limit(k, k_sign, l, l_sign, limit)
}

// The smallest scalar of so many bits whose row with window 1 has the most digits that are not 0.
#[unsafe(no_mangle)]
pub extern "C" fn sheets_dearest(bits: u32, scalar: &mut [u8]) -> u64
    ensures answer { result ≡ told_dearest (dearest_answer bits (length scalar.old)) }
    ensures buffer { scalar.new ≡ dearest_buffer bits scalar.old }
{
    host::dearest(bits, scalar)
}

// Reads a sheet: accepted, or the first question that it misses.
#[unsafe(no_mangle)]
pub extern "C" fn sheets_read(sheet: &[u8]) -> u64
    ensures answer { result ≡ told_judgement (answer card sheet.now) }
{
    host::read::<Card, _>(sheet)
}

// So many columns of two rows, a byte for each.
#[unsafe(no_mangle)]
pub extern "C" fn sheets_pack(
    columns: usize,
    k_digits: &[u8],
    l_digits: &[u8],
    packed: &mut [u8],
) -> u64
    ensures answer { result ≡ told_packing (pack_answer columns k_digits.now l_digits.now (length packed.old)) }
    ensures buffer { packed.new ≡ pack_buffer columns k_digits.now l_digits.now packed.old }
{
    host::pack(columns, k_digits, l_digits, packed)
}

// The two rows of so many bytes.
#[unsafe(no_mangle)]
pub extern "C" fn sheets_unpack(
    columns: usize,
    packed: &[u8],
    k_digits: &mut [u8],
    l_digits: &mut [u8],
) -> u64
    ensures answer { result ≡ told_packing (unpack_answer columns packed.now (length k_digits.old) (length l_digits.old)) }
    ensures first { k_digits.new ≡ unpack_buffer P columns packed.now k_digits.old l_digits.old }
    ensures second { l_digits.new ≡ unpack_buffer Q columns packed.now k_digits.old l_digits.old }
{
    host::unpack(columns, packed, k_digits, l_digits)
}
