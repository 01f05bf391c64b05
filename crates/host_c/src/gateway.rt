// The calls of the gateway: what the card's do, by the gateway's limits.
ghost use Rattle.std.specs.Prelude.{◌≡◌, length};
ghost use Rattle.digits.specs.Limits.{gateway};
ghost use Rattle.digits.specs.Two.{P, Q};
ghost use Rattle.recode.specs.Call.{row_answer, row_buffer, joint_answer, joint_buffer};
ghost use Rattle.down.specs.Call.{down_answer, down_buffer};
ghost use Rattle.codes.specs.Call.{codes_answer, codes_digits, codes_buffer};
ghost use Rattle.writer.specs.Call.{j_answer, j_buffer, i_answer, i_buffer, i_down_answer, i_down_buffer};
ghost use Rattle.chooser.specs.Call.{cheapest_answer, cheapest_buffer};
ghost use Rattle.sheet.specs.Answer.{answer};
ghost use Rattle.host.specs.Told.{told_recoded, told_sheet, told_judgement};

use digits::Gateway;

// The row of a scalar for the window m.
#[unsafe(no_mangle)]
pub extern "C" fn sheets_gateway_row(scalar: &[u8], sign: u32, m: u32, digits: &mut [u8]) -> u64
    ensures answer { result ≡ told_recoded (row_answer gateway scalar.now sign m (length digits.old)) }
    ensures buffer { digits.new ≡ row_buffer gateway scalar.now sign m digits.old }
{
    host::row::<Gateway>(scalar, sign, m, digits)
}

// The row of a scalar for the window m, from the top down.
#[unsafe(no_mangle)]
pub extern "C" fn sheets_gateway_row_down(
    scalar: &[u8],
    sign: u32,
    m: u32,
    digits: &mut [u8],
) -> u64
    ensures answer { result ≡ told_recoded (down_answer gateway scalar.now sign m (length digits.old)) }
    ensures buffer { digits.new ≡ down_buffer gateway scalar.now sign m digits.old }
{
    host::row_down::<Gateway>(scalar, sign, m, digits)
}

// The joint sparse form of two scalars.
#[unsafe(no_mangle)]
pub extern "C" fn sheets_gateway_joint(
    k: &[u8],
    k_sign: u32,
    l: &[u8],
    l_sign: u32,
    k_digits: &mut [u8],
    l_digits: &mut [u8],
) -> u64
    ensures answer { result ≡ told_recoded (joint_answer gateway k.now k_sign l.now l_sign (length k_digits.old) (length l_digits.old)) }
    ensures first { k_digits.new ≡ joint_buffer gateway P k.now k_sign l.now l_sign k_digits.old l_digits.old }
    ensures second { l_digits.new ≡ joint_buffer gateway Q k.now k_sign l.now l_sign k_digits.old l_digits.old }
{
    host::joint::<Gateway>(k, k_sign, l, l_sign, k_digits, l_digits)
}

// The joint sparse form of two scalars, and beside each row the codes of its digits.
#[unsafe(no_mangle)]
pub extern "C" fn sheets_gateway_joint_codes(
    k: &[u8],
    k_sign: u32,
    l: &[u8],
    l_sign: u32,
    k_digits: &mut [u8],
    l_digits: &mut [u8],
    k_codes: &mut [u8],
    l_codes: &mut [u8],
) -> u64
    ensures answer { result ≡ told_recoded (codes_answer gateway k.now k_sign l.now l_sign (length k_digits.old) (length l_digits.old) (length k_codes.old) (length l_codes.old)) }
    ensures first { k_digits.new ≡ codes_digits gateway P k.now k_sign l.now l_sign k_digits.old l_digits.old k_codes.old l_codes.old }
    ensures second { l_digits.new ≡ codes_digits gateway Q k.now k_sign l.now l_sign k_digits.old l_digits.old k_codes.old l_codes.old }
    ensures first_codes { k_codes.new ≡ codes_buffer gateway P k.now k_sign l.now l_sign k_digits.old l_digits.old k_codes.old l_codes.old }
    ensures second_codes { l_codes.new ≡ codes_buffer gateway Q k.now k_sign l.now l_sign k_digits.old l_digits.old k_codes.old l_codes.old }
{
    host::joint_codes::<Gateway>(k, k_sign, l, l_sign, k_digits, l_digits, k_codes, l_codes)
}

// The sheet of plan J.
#[unsafe(no_mangle)]
pub extern "C" fn sheets_gateway_plan_j(
    k: &[u8],
    k_sign: u32,
    l: &[u8],
    l_sign: u32,
    sheet: &mut [u8],
) -> u64
    ensures answer { result ≡ told_sheet (j_answer gateway k.now k_sign l.now l_sign (length sheet.old)) }
    ensures buffer { sheet.new ≡ j_buffer gateway k.now k_sign l.now l_sign sheet.old }
{
    host::plan_j::<Gateway>(k, k_sign, l, l_sign, sheet)
}

// The sheet of plan I with the windows m1 for P and m2 for Q.
#[unsafe(no_mangle)]
pub extern "C" fn sheets_gateway_plan_i(
    k: &[u8],
    k_sign: u32,
    l: &[u8],
    l_sign: u32,
    m1: u32,
    m2: u32,
    sheet: &mut [u8],
) -> u64
    ensures answer { result ≡ told_sheet (i_answer gateway k.now k_sign l.now l_sign m1 m2 (length sheet.old)) }
    ensures buffer { sheet.new ≡ i_buffer gateway k.now k_sign l.now l_sign m1 m2 sheet.old }
{
    host::plan_i::<Gateway>(k, k_sign, l, l_sign, m1, m2, sheet)
}

// The same from rows that are worked out from the top down.
#[unsafe(no_mangle)]
pub extern "C" fn sheets_gateway_plan_i_down(
    k: &[u8],
    k_sign: u32,
    l: &[u8],
    l_sign: u32,
    m1: u32,
    m2: u32,
    sheet: &mut [u8],
) -> u64
    ensures answer { result ≡ told_sheet (i_down_answer gateway k.now k_sign l.now l_sign m1 m2 (length sheet.old)) }
    ensures buffer { sheet.new ≡ i_down_buffer gateway k.now k_sign l.now l_sign m1 m2 sheet.old }
{
    host::plan_i_down::<Gateway>(k, k_sign, l, l_sign, m1, m2, sheet)
}

// The cheapest sheet for k and l that needs no more slots than the limit.
#[unsafe(no_mangle)]
pub extern "C" fn sheets_gateway_cheapest(
    k: &[u8],
    k_sign: u32,
    l: &[u8],
    l_sign: u32,
    limit: u32,
    sheet: &mut [u8],
) -> u64
    ensures answer { result ≡ told_sheet (cheapest_answer gateway k.now k_sign l.now l_sign limit (length sheet.old)) }
    ensures buffer { sheet.new ≡ cheapest_buffer gateway k.now k_sign l.now l_sign limit sheet.old }
{
    host::cheapest::<Gateway>(k, k_sign, l, l_sign, limit, sheet)
}

// Reads a sheet: accepted, or the first question that it misses.
#[unsafe(no_mangle)]
pub extern "C" fn sheets_gateway_read(sheet: &[u8]) -> u64
    ensures answer { result ≡ told_judgement (answer gateway sheet.now) }
{
    host::read::<Gateway, _>(sheet)
}
