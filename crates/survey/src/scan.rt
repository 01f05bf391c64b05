ghost use Rattle.std.specs.Prelude.{[], ◌+◌, ◌*◌, ◌<◌, ◌≤◌, pos, length, drop};
ghost use Rattle.digits.specs.declared.limits.Limits.{Limits};
ghost use Rattle.digits.specs.Two.{P, Q};
ghost use Rattle.sheet.specs.declared.Plan.{Plan};
ghost use Rattle.sheet.specs.Spelling.{lines};
ghost use Rattle.survey.specs.Sum.{most, Holds};
ghost use Rattle.survey.specs.Survey.State.{Counted};
ghost use Rattle.survey.specs.Survey.Scan.{Scanned, Summed};

use crate::fault::{Fault, Question};
use crate::phase::Phase;
use crate::state::State;
use sheet::Plan;

// The state behind the last line: a line may be missing.
fn finished(state: State) -> Result<State, Fault>
    ensures { (plan : Plan) → Scanned plan state [] result }
{
    match state.phase {
        Phase::Ended => Ok(state),
        Phase::Tables | Phase::Steps => Err(Question::Spelling.at(state.line as usize)),
    }
}

// The lines from a place on: the state at their end, or the first line out of place. Each digit is added to its sum as the line is taken.
pub fn scan_from(
    sheet: &[u8],
    from: usize,
    plan: Plan,
    start: State,
    p: &mut [u64],
    q: &mut [u64],
) -> Result<State, Fault>
    requires start { (length sheet.now ≤ most) × ((from ≤ length sheet.now) × (Counted start × (start.line ≤ from + 1))) }
    requires cleared { (start.places < 16 * length p.old) × (Holds (length p.old) 0 p.old (pos 0) × Holds (length p.old) 0 q.old (pos 0)) }
    ensures scanned { (limits : Limits) → 1 ≤ limits.figures → Scanned plan start (lines limits (drop from sheet.now)) result }
    ensures first { (limits : Limits) → 1 ≤ limits.figures → Summed (length p.old) P start (lines limits (drop from sheet.now)) result p.new }
    ensures second { (limits : Limits) → 1 ≤ limits.figures → Summed (length p.old) Q start (lines limits (drop from sheet.now)) result q.new }
{
    let mut at = from;
    let mut state = start;
    // No `for`: only the line that was read tells where the next one begins.
    while at < sheet.len() {
        let taken = lines::line_at(sheet, at);
        if !crate::phase::is_placed(state.phase, taken.line) {
            return Err(Question::Spelling.at(state.line as usize));
        }
        crate::totals::add_line(p, q, state.places, taken.line);
        state = state.after(plan, taken.line);
        at = taken.next;
    }
    finished(state)
}
