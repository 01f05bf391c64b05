ghost use Rattle.std.specs.Prelude.{◌≡◌};
ghost use Rattle.sheet.specs.Questions.{windowed};
ghost use Rattle.lines.specs.Coded.{kind_of};
ghost use Rattle.survey.specs.Survey.State.{plan_for, is_on_plan, claimed};

use digits::Limits;
use lines::{Header, Kind};
use sheet::Plan;

// The plan that a header names.
pub fn plan_of(header: Header) -> Plan
    ensures { result ≡ plan_for header }
{
    match header.kind {
        Kind::Joint => Plan::J,
        Kind::Interleaved => Plan::I(header.m1, header.m2),
    }
}

// Whether the windows are odd, 1 to 31, for J both 1.
fn is_windowed(kind: Kind, m1: u32, m2: u32) -> bool
    ensures { result ≡ windowed (kind_of kind) m1 m2 }
{
    match kind {
        Kind::Joint => m1 == 1 && m2 == 1,
        Kind::Interleaved => digits::are_windows(m1, m2),
    }
}

// Whether the windows are allowed and the slots are the plan's.
pub fn is_on_plan(header: Header) -> bool
    ensures { result ≡ is_on_plan header }
{
    is_windowed(header.kind, header.m1, header.m2) && header.slots == plan_of(header).slots()
}

// The D lines that a header claims: its doublings less those of the plan's table; 0 where that is negative or too many.
pub fn claimed(limits: Limits, header: Header) -> usize
    ensures { result ≡ claimed limits header }
{
    let tables = plan_of(header).table_doublings();
    let places = header.doublings.saturating_sub(tables) as usize;
    if places <= limits.doublings {
        places
    } else {
        0
    }
}
