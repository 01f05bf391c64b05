ghost use Rattle.std.specs.Prelude.{◌≡◌, ◌++◌, length, drop};
ghost use Rattle.digits.specs.Buffer.{columns_below};
ghost use Rattle.digits.specs.Scalar.{signed_scalar};
ghost use Rattle.written.specs.Written.{sheet_of};
ghost use Rattle.writer.specs.Body.Parts.{Ready};
ghost use Rattle.writer.specs.Call.{columns_size};

use crate::answer::Sheet;
use digits::Scalar;
use sheet::Plan;

// The columns of two rows of digits: those below `places`, and what the plan counts of them.
#[derive(Clone, Copy)]
pub struct Columns<'a> {
    pub p: &'a [u8],
    pub q: &'a [u8],
    pub places: usize,
    pub weight: usize,
}

// Writes the sheet of two scalars for a plan from columns.
pub fn write_sheet(
    out: &mut [u8],
    plan: Plan,
    k: Scalar<'_>,
    l: Scalar<'_>,
    columns: Columns<'_>,
) -> Sheet
    requires { Ready plan (signed_scalar k.bytes.now k.sign) (signed_scalar l.bytes.now l.sign) columns.p.now columns.q.now columns.places columns.weight out.old }
    ensures answer { result ≡ columns_size plan (columns_below columns.entry.places columns.entry.p.now columns.entry.q.now) (signed_scalar k.entry.bytes.now k.entry.sign) (signed_scalar l.entry.bytes.now l.entry.sign) }
    ensures buffer { out.new ≡ sheet_of plan (columns_below columns.entry.places columns.entry.p.now columns.entry.q.now) (signed_scalar k.entry.bytes.now k.entry.sign) (signed_scalar l.entry.bytes.now l.entry.sign) ++ drop (length (sheet_of plan (columns_below columns.entry.places columns.entry.p.now columns.entry.q.now) (signed_scalar k.entry.bytes.now k.entry.sign) (signed_scalar l.entry.bytes.now l.entry.sign))) out.old }
{
    let Columns {
        p,
        q,
        places,
        weight,
    } = columns;
    let additions = plan.table_additions() + (weight as u32).saturating_sub(1);
    let doublings = plan.table_doublings() + (places as u32).saturating_sub(1);
    let a = crate::header::put_header(out, 0, plan, additions, doublings, k, l);
    let b = crate::tables::put_tables(out, a, plan);
    let c = crate::steps::put_places(out, b, plan, p, q, places);
    let length = crate::steps::put_letter(out, c, b'E');
    Sheet { length, additions }
}
