ghost use Rattle.std.specs.Prelude.{◌≡◌, pos};
ghost use Rattle.digits.specs.Two.{P, Q};
ghost use Rattle.sheet.specs.Spelling.{lines};
ghost use Rattle.sheet.specs.Questions.{unless, wrong};
ghost use Rattle.sheet.specs.Answer.{heading, answer};
ghost use Rattle.survey.specs.Sum.{limbs_of, Holds};
ghost use Rattle.survey.specs.Survey.{Held, Clear, RowIn};
ghost use Rattle.reader.specs.Judgement.{judgement};

use digits::Limits;
use survey::{Fault, Question, Surveyor};

// Whether the result, which the sums hold, is kP + lQ. `Held` is a law of the machine; both machines share this text.
fn is_right(limits: Limits, sheet: &[u8], p: &[u64], q: &[u64], empty: &[u64]) -> bool
    requires held { Held limits × Holds (limbs_of limits) 0 empty.now (pos 0) }
    requires clear { Clear limits sheet.now × (RowIn limits P sheet.now p.now × RowIn limits Q sheet.now q.now) }
    ensures { unless result 1 ≡ wrong (heading (lines limits sheet.now)) (lines limits sheet.now) }
{
    crate::compare::is_scalar_of(limits, p, empty, lines::head_field(sheet, 7))
        && crate::compare::is_scalar_of(limits, q, empty, lines::head_field(sheet, 8))
}

// Question 11: is the result (k, l)?
fn result_question(
    limits: Limits,
    sheet: &[u8],
    p: &[u64],
    q: &[u64],
    empty: &[u64],
) -> Result<(), Fault>
    requires held { Held limits × Holds (limbs_of limits) 0 empty.now (pos 0) }
    requires clear { Clear limits sheet.now × (RowIn limits P sheet.now p.now × RowIn limits Q sheet.now q.now) }
    ensures { judgement result ≡ answer limits sheet.now }
{
    if is_right(limits, sheet, p, q, empty) {
        Ok(())
    } else {
        Err(Question::Total.at(1))
    }
}

// Reads a sheet: the first question that it misses, if there is one.
pub fn read<M: Surveyor<LIMBS>, const LIMBS: usize>(sheet: &[u8]) -> Result<(), Fault>
    ensures { judgement result ≡ answer M.LIMITS sheet.now }
{
    let sums = survey::surveyed::<M, LIMBS>(sheet)?;
    let empty = survey::empty::<LIMBS>();
    result_question(M::LIMITS, sheet, &sums.p, &sums.q, &empty)
}
