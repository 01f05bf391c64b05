ghost use Rattle.std.specs.Prelude.{◌≡◌, ℕ, length, IfOk};
ghost use Rattle.digits.specs.Asked.{Asked};
ghost use Rattle.digits.specs.Scalar.{Bytes, signed_scalar};
ghost use Rattle.digits.specs.declared.missed.Missed.TheVariants.{BadLimit};
ghost use Rattle.sheet.specs.Plan.{is_limit};
ghost use Rattle.writer.specs.Call.{number};
ghost use Rattle.chooser.specs.Body.Choice.{plan_answer, plan_buffer};
ghost use Rattle.chooser.specs.Call.{choice_number, choice_question, choice_answer, ChoicePromised, cheapest_question, cheapest_answer, cheapest_buffer, Promised};

use crate::recodable::Recodable;
use digits::{Machine, Missed, Scalar};
use sheet::Plan;
use writer::{Sheet, WriteSheet};

// Question 4: whether a limit of slots may be asked for.
pub fn check_limit(limit: u32) -> Result<(), Missed>
    ensures { Asked (is_limit limit) BadLimit result }
{
    if Plan::is_limit(limit) {
        return Ok(());
    }
    Err(Missed::BadLimit)
}

// The plan of the cheapest sheet for k and l that needs no more slots than the limit. The scalars' signs do not change it. Questions 1 and 4
// are asked.
pub fn cheapest_plan<M: Machine>(k: Scalar<'_>, l: Scalar<'_>, limit: u32) -> Result<Plan, Missed>
    ensures answer { result ≡ choice_answer M.LIMITS k.entry.bytes.now l.entry.bytes.now limit }
    ensures promised { (k_sign l_sign : ℕ) → ChoicePromised result (signed_scalar k.entry.bytes.now k_sign) (signed_scalar l.entry.bytes.now l_sign) limit }
    ensures question { choice_number result ≡ choice_question M.LIMITS k.entry.bytes.now l.entry.bytes.now limit }
{
    digits::check_scalars(k, l, M::LIMITS)?;
    check_limit(limit)?;
    let k = Recodable { scalar: k };
    let l = Recodable { scalar: l };
    Ok(crate::choice::first_plan(k, l, limit))
}

// The sheet of a plan. Questions 1, 2 and 3 are asked.
pub fn sheet_of<M: WriteSheet>(
    plan: Plan,
    k: Scalar<'_>,
    l: Scalar<'_>,
    sheet: &mut [u8],
) -> Result<Sheet, Missed>
    ensures answer { result ≡ plan_answer M.LIMITS plan k.entry.bytes.now k.entry.sign l.entry.bytes.now l.entry.sign (length sheet.old) }
    ensures buffer { sheet.new ≡ plan_buffer M.LIMITS plan k.entry.bytes.now k.entry.sign l.entry.bytes.now l.entry.sign sheet.old }
{
    match plan {
        Plan::J => M::plan_j(k, l, sheet),
        Plan::I(m1, m2) => M::plan_i(k, l, m1, m2, sheet),
    }
}

// The cheapest sheet for k and l that needs no more slots than the limit. Questions 1, 4 and 3 are asked.
pub fn cheapest<M: WriteSheet>(
    k: Scalar<'_>,
    l: Scalar<'_>,
    limit: u32,
    sheet: &mut [u8],
) -> Result<Sheet, Missed>
    ensures answer { result ≡ cheapest_answer M.LIMITS k.entry.bytes.now k.entry.sign l.entry.bytes.now l.entry.sign limit (length sheet.old) }
    ensures buffer { sheet.new ≡ cheapest_buffer M.LIMITS k.entry.bytes.now k.entry.sign l.entry.bytes.now l.entry.sign limit sheet.old }
    ensures promised { Promised M.LIMITS result sheet.new (signed_scalar k.entry.bytes.now k.entry.sign) (signed_scalar l.entry.bytes.now l.entry.sign) limit }
    ensures question { number result ≡ cheapest_question M.LIMITS k.entry.bytes.now l.entry.bytes.now limit (length sheet.old) }
{
    let plan = cheapest_plan::<M>(k, l, limit)?;
    sheet_of::<M>(plan, k, l, sheet)
}
