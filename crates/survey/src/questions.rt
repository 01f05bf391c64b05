ghost use Rattle.std.specs.Prelude.{List, pos};
ghost use Rattle.digits.specs.declared.limits.Limits.{Limits};
ghost use Rattle.digits.specs.Two.{P, Q};
ghost use Rattle.sheet.specs.Line as meant;
ghost use Rattle.survey.specs.Survey.State.{found};
ghost use Rattle.survey.specs.Survey.Scan.{Asked, Answered, Faultless};
ghost use Rattle.survey.specs.Sum.{limbs_of, Holds};
ghost use Rattle.survey.specs.Survey.{Held, JudgedBy, Surveyed, ResultIn, ReadBy};

use crate::fault::{Fault, Question};
use crate::machine::Surveyor;
use crate::state::State;
use digits::Limits;
use lines::Header;

// What the steps of a sheet come to: the sums of P and of Q, each an array of its own, which is compared with its scalar by itself.
#[derive(Clone, Copy)]
pub struct Sums<const LIMBS: usize> {
    pub p: [u64; LIMBS],
    pub q: [u64; LIMBS],
}

// A question is missed where a line is at fault.
fn ask(question: Question, fault: Option<u32>) -> Result<(), Fault>
    ensures { Asked question (found fault) result }
{
    match fault {
        Some(line) => Err(question.at(line as usize)),
        None => Ok(()),
    }
}

// Question 10: are both counts true?
fn counts(header: Header, state: State) -> Result<(), Fault>
    ensures { (limits : Limits) (ls : List meant.Line) → Answered limits ls header state → Faultless state → JudgedBy limits ls result }
{
    let additions = header.additions as usize;
    let doublings = header.doublings as usize;
    if additions == state.additions && doublings == state.doublings {
        Ok(())
    } else {
        Err(Question::Counts.at(1))
    }
}

// Questions 7 to 10, of a sheet whose lines are all in place.
fn questions(header: Header, state: State) -> Result<(), Fault>
    ensures { (limits : Limits) (ls : List meant.Line) → Answered limits ls header state → JudgedBy limits ls result }
{
    ask(Question::Plan, state.tables.fault)?;
    ask(Question::Steps, state.steps.fault)?;
    ask(Question::Doublings, state.doubles.fault)?;
    counts(header, state)
}

// Questions 5 to 10, by the limits, which are `Held` by a law of the machine: both machines share this text, which generic code would double
// (reading then took 1.65 times as many instructions). The sums are lent empty; where all questions are met, they hold the result.
fn survey_into(limits: Limits, sheet: &[u8], p: &mut [u64], q: &mut [u64]) -> Result<(), Fault>
    requires { Held limits × (Holds (limbs_of limits) 0 p.old (pos 0) × Holds (limbs_of limits) 0 q.old (pos 0)) }
    ensures surveyed { Surveyed limits sheet.now result }
    ensures first { ResultIn limits P sheet.now result p.new }
    ensures second { ResultIn limits Q sheet.now result q.new }
{
    if limits.sheet < sheet.len() {
        return Err(Question::Length.at(0));
    }
    let Some(opening) = lines::opening_of(limits, sheet) else {
        return Err(Question::Spelling.at(1));
    };
    let plan = crate::header::plan_of(opening.header);
    let start = State::new(limits, opening.header);
    let state = crate::scan::scan_from(sheet, opening.next, plan, start, p, q)?;
    questions(opening.header, state)
}

// Questions 5 to 10, and where they are met what the steps of the sheet come to.
pub fn surveyed<M: Surveyor<LIMBS>, const LIMBS: usize>(sheet: &[u8]) -> Result<Sums<LIMBS>, Fault>
    ensures { ReadBy M.LIMITS sheet.now result }
{
    let mut p = crate::limbs::empty::<LIMBS>();
    let mut q = crate::limbs::empty::<LIMBS>();
    survey_into(M::LIMITS, sheet, &mut p, &mut q)?;
    Ok(Sums { p, q })
}
