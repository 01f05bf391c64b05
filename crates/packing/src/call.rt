ghost use Rattle.std.specs.Prelude.{◌≡◌, true, length, OnOk};
ghost use Rattle.digits.specs.Asked.{Asked};
ghost use Rattle.digits.specs.Missed.{number_of};
ghost use Rattle.digits.specs.Two.{P, Q};
ghost use Rattle.digits.specs.declared.missed.Missed.TheVariants.{NoRoom};
ghost use Rattle.packing.specs.Call.Standing.{Rooms};
ghost use Rattle.packing.specs.Call.{roomy, packable, pack_answer, pack_buffer, pack_question, unpack_answer, unpack_buffer, unpack_question, Packs};

use digits::{Missed, check_room};

// Question 3: whether two rows and a buffer have a place for each of n columns.
fn check_rooms(n: usize, k_places: usize, l_places: usize, room: usize) -> Result<(), Missed>
    ensures asked { Asked (roomy n k_places l_places room) NoRoom result }
{
    check_room(n, k_places)?;
    check_room(n, l_places)?;
    check_room(n, room)
}

// The questions of packing.
#[tactic(auto, unfolding(crate::specs::Call::pack_answer))]
fn check_pack(columns: usize, k_digits: &[u8], l_digits: &[u8], room: usize) -> Result<(), Missed>
    ensures answer { result ≡ pack_answer columns k_digits.now l_digits.now room }
    ensures rooms { OnOk result (Rooms columns (length k_digits.now) (length l_digits.now) room) }
    ensures packable { OnOk result (packable columns k_digits.now l_digits.now ≡ true) }
{
    check_rooms(columns, k_digits.len(), l_digits.len(), room)?;
    let k_good = crate::stored::all_store_digits(&k_digits[..columns]);
    let l_good = crate::stored::all_store_digits(&l_digits[..columns]);
    if k_good && l_good {
        return Ok(());
    }
    Err(Missed::BadColumn)
}

// The questions of unpacking.
#[tactic(auto, unfolding(crate::specs::Call::unpack_answer))]
fn check_unpack(
    columns: usize,
    packed: &[u8],
    k_places: usize,
    l_places: usize,
) -> Result<(), Missed>
    ensures answer { result ≡ unpack_answer columns packed.now k_places l_places }
    ensures rooms { OnOk result (Rooms columns k_places l_places (length packed.now)) }
{
    check_rooms(columns, k_places, l_places, packed.len())?;
    if crate::stored::all_store_columns(&packed[..columns]) {
        return Ok(());
    }
    Err(Missed::BadColumn)
}

// Packs so many columns of two rows, a column to a byte.
#[tactic(auto, using(crate::proofs::Laws::Call::Undone::pack_left, crate::proofs::Laws::Call::Standing::pack_question_lem))]
pub fn pack(
    columns: usize,
    k_digits: &[u8],
    l_digits: &[u8],
    packed: &mut [u8],
) -> Result<(), Missed>
    ensures answer { result ≡ pack_answer columns k_digits.now l_digits.now (length packed.old) }
    ensures buffer { packed.new ≡ pack_buffer columns k_digits.now l_digits.now packed.old }
    ensures promised { OnOk result (Packs columns k_digits.now l_digits.now packed.new) }
    ensures question { number_of result ≡ pack_question columns k_digits.now l_digits.now (length packed.old) }
{
    check_pack(columns, k_digits, l_digits, packed.len())?;
    crate::columns::pack_all(k_digits, l_digits, &mut packed[..columns]);
    Ok(())
}

// Unpacks so many bytes, the digits of each column into two rows.
#[tactic(auto, using(crate::proofs::Laws::Call::Undone::unpack_left, crate::proofs::Laws::Call::Standing::unpack_question_lem))]
pub fn unpack(
    columns: usize,
    packed: &[u8],
    k_digits: &mut [u8],
    l_digits: &mut [u8],
) -> Result<(), Missed>
    ensures answer { result ≡ unpack_answer columns packed.now (length k_digits.old) (length l_digits.old) }
    ensures first { k_digits.new ≡ unpack_buffer P columns packed.now k_digits.old l_digits.old }
    ensures second { l_digits.new ≡ unpack_buffer Q columns packed.now k_digits.old l_digits.old }
    ensures promised { OnOk result (Packs columns k_digits.new l_digits.new packed.now) }
    ensures question { number_of result ≡ unpack_question columns packed.now (length k_digits.old) (length l_digits.old) }
{
    check_unpack(columns, packed, k_digits.len(), l_digits.len())?;
    crate::columns::unpack_all(
        &packed[..columns],
        &mut k_digits[..columns],
        &mut l_digits[..columns],
    );
    Ok(())
}
