ghost use Rattle.std.specs.Prelude.{◌≡◌, true, ◌&&◌, ◌++◌, ◌+◌, ◌*◌, ◌≤◌, max, length, drop};
ghost use Rattle.digits.specs.Limits.{gateway};
ghost use Rattle.digits.specs.Row.{is_window};
ghost use Rattle.digits.specs.Scalar.{signed_scalar, sized};
ghost use Rattle.sheet.specs.declared.Plan.TheVariants.{J, I};
ghost use Rattle.written.specs.Written.{sheet_of, written};
ghost use Rattle.writer.specs.Body.Parts.{Served};
ghost use Rattle.writer.specs.Call.{number, wrote_columns, wrote, SheetPromised, j_question, j_answer, j_buffer, i_question, rows_answer, rows_buffer};
ghost use Rattle.writer.specs.Rows.{columns_by};

use crate::answer::Sheet;
use crate::rows::Rows;
use crate::write::{Columns, write_sheet};
use digits::{Gateway, Limits, Missed, Scalar, Window};
use recode::Recode;
use sheet::Plan;

// The sheet of plan J, by the limits, which p and q have places for.
#[tactic(auto, unfolding(crate::specs::Call::j_answer, crate::specs::Call::j_buffer))]
pub fn plan_j_within(
    limits: Limits,
    k: Scalar<'_>,
    l: Scalar<'_>,
    sheet: &mut [u8],
    p: &mut [u8],
    q: &mut [u8],
) -> Result<Sheet, Missed>
    requires { Served limits (length p.old) (length q.old) }
    ensures answer { result ≡ j_answer limits k.entry.bytes.now k.entry.sign l.entry.bytes.now l.entry.sign (length sheet.old) }
    ensures buffer { sheet.new ≡ j_buffer limits k.entry.bytes.now k.entry.sign l.entry.bytes.now l.entry.sign sheet.old }
    ensures promised { SheetPromised limits J (signed_scalar k.entry.bytes.now k.entry.sign) (signed_scalar l.entry.bytes.now l.entry.sign) result sheet.new }
    ensures question { number result ≡ j_question limits k.entry.bytes.now l.entry.bytes.now (length sheet.old) }
{
    digits::check_scalars(k, l, limits)?;
    digits::check_room(limits.sheet, sheet.len())?;
    write_j(k, l, sheet, p, q)
}

// The sheet of plan I from rows of a kind, by the limits, which p and q have places for.
pub fn plan_i_within<R: Rows>(
    limits: Limits,
    k: Scalar<'_>,
    l: Scalar<'_>,
    m1: u32,
    m2: u32,
    sheet: &mut [u8],
    p: &mut [u8],
    q: &mut [u8],
) -> Result<Sheet, Missed>
    requires { Served limits (length p.old) (length q.old) }
    ensures answer { result ≡ rows_answer R.kind limits k.entry.bytes.now k.entry.sign l.entry.bytes.now l.entry.sign m1 m2 (length sheet.old) }
    ensures buffer { sheet.new ≡ rows_buffer R.kind limits k.entry.bytes.now k.entry.sign l.entry.bytes.now l.entry.sign m1 m2 sheet.old }
    ensures promised { SheetPromised limits (I m1 m2) (signed_scalar k.entry.bytes.now k.entry.sign) (signed_scalar l.entry.bytes.now l.entry.sign) result sheet.new }
    ensures question { number result ≡ i_question limits k.entry.bytes.now l.entry.bytes.now m1 m2 (length sheet.old) }
{
    digits::check_scalars(k, l, limits)?;
    // Asked alone: what follows, down to the plan in the header, takes the windows' numbers.
    Window::try_from(m1)?;
    Window::try_from(m2)?;
    digits::check_room(limits.sheet, sheet.len())?;
    write_i::<R>(k, l, m1, m2, sheet, p, q)
}

// Writes the sheet of plan J.
fn write_j(
    k: Scalar<'_>,
    l: Scalar<'_>,
    sheet: &mut [u8],
    p: &mut [u8],
    q: &mut [u8],
) -> Result<Sheet, Missed>
    requires scalars { (sized gateway k.bytes.now && sized gateway l.bytes.now) ≡ true }
    requires digits_room { (8 * max (length k.bytes.now) (length l.bytes.now) + 1 ≤ length p.old) × (8 * max (length k.bytes.now) (length l.bytes.now) + 1 ≤ length q.old) }
    requires sheet_room { length (written J (signed_scalar k.bytes.now k.sign) (signed_scalar l.bytes.now l.sign)) ≤ length sheet.old }
    ensures answer { result ≡ wrote J (signed_scalar k.entry.bytes.now k.entry.sign) (signed_scalar l.entry.bytes.now l.entry.sign) }
    ensures buffer { sheet.new ≡ written J (signed_scalar k.entry.bytes.now k.entry.sign) (signed_scalar l.entry.bytes.now l.entry.sign) ++ drop (length (written J (signed_scalar k.entry.bytes.now k.entry.sign) (signed_scalar l.entry.bytes.now l.entry.sign))) sheet.old }
{
    let form = Gateway::joint(k, l, p, q)?;
    let columns = Columns {
        p,
        q,
        places: form.length,
        weight: form.weight,
    };
    Ok(write_sheet(sheet, Plan::J, k, l, columns))
}

// Writes the sheet of plan I from rows of a kind.
fn write_i<R: Rows>(
    k: Scalar<'_>,
    l: Scalar<'_>,
    m1: u32,
    m2: u32,
    sheet: &mut [u8],
    p: &mut [u8],
    q: &mut [u8],
) -> Result<Sheet, Missed>
    requires scalars { (sized gateway k.bytes.now && sized gateway l.bytes.now) ≡ true }
    requires windows { (is_window m1 && is_window m2) ≡ true }
    requires digits_room { (8 * max (length k.bytes.now) (length l.bytes.now) + 1 ≤ length p.old) × (8 * max (length k.bytes.now) (length l.bytes.now) + 1 ≤ length q.old) }
    requires sheet_room { length (sheet_of (I m1 m2) (columns_by R.kind m1 m2 (signed_scalar k.bytes.now k.sign) (signed_scalar l.bytes.now l.sign)) (signed_scalar k.bytes.now k.sign) (signed_scalar l.bytes.now l.sign)) ≤ length sheet.old }
    ensures answer { result ≡ wrote_columns (I m1 m2) (columns_by R.kind m1 m2 (signed_scalar k.entry.bytes.now k.entry.sign) (signed_scalar l.entry.bytes.now l.entry.sign)) (signed_scalar k.entry.bytes.now k.entry.sign) (signed_scalar l.entry.bytes.now l.entry.sign) }
    ensures buffer { sheet.new ≡ sheet_of (I m1 m2) (columns_by R.kind m1 m2 (signed_scalar k.entry.bytes.now k.entry.sign) (signed_scalar l.entry.bytes.now l.entry.sign)) (signed_scalar k.entry.bytes.now k.entry.sign) (signed_scalar l.entry.bytes.now l.entry.sign) ++ drop (length (sheet_of (I m1 m2) (columns_by R.kind m1 m2 (signed_scalar k.entry.bytes.now k.entry.sign) (signed_scalar l.entry.bytes.now l.entry.sign)) (signed_scalar k.entry.bytes.now k.entry.sign) (signed_scalar l.entry.bytes.now l.entry.sign))) sheet.old }
{
    let first = R::write(k, m1, p)?;
    let second = R::write(l, m2, q)?;
    let columns = Columns {
        p,
        q,
        places: first.length.max(second.length),
        weight: first.weight + second.weight,
    };
    Ok(write_sheet(sheet, Plan::I(m1, m2), k, l, columns))
}
