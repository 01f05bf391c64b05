ghost use Rattle.std.specs.Prelude.{◌≡◌};
ghost use Rattle.survey.specs.Survey.State.{is_placed};

use lines::Line;

// What may stand next: T lines or L or E; D and A lines or E; nothing.
#[derive(Clone, Copy, PartialEq, Eq)]
pub enum Phase {
    Tables,
    Steps,
    Ended,
}

// Question 6 to a line: T, L or E behind the header and behind T; D, A or E behind L; nothing behind E.
pub fn is_placed(phase: Phase, line: Line) -> bool
    ensures { result ≡ is_placed phase line }
{
    match phase {
        Phase::Tables => matches!(line, Line::Table(_) | Line::Load(_) | Line::End),
        Phase::Steps => matches!(line, Line::Double | Line::Add(_) | Line::End),
        Phase::Ended => false,
    }
}
