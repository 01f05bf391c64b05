ghost use Rattle.std.specs.Prelude.{◌≡◌};
ghost use Rattle.sheet.specs.Questions.{unless};
ghost use Rattle.survey.specs.Question.{number};
ghost use Rattle.survey.specs.Survey.State.{found, earlier};

// The questions that are put to a sheet, each by its number.
#[derive(Clone, Copy, PartialEq, Eq)]
pub enum Question {
    Length = 5,
    Spelling = 6,
    Plan = 7,
    Steps = 8,
    Doublings = 9,
    Counts = 10,
    Total = 11,
}

// The question that a sheet misses, and the line at fault.
#[derive(Clone, Copy, PartialEq, Eq)]
pub struct Fault {
    pub question: Question,
    pub line: usize,
}

impl Question {
    // The number of the question.
    pub fn number(self) -> u32
        ensures { result ≡ number self }
    {
        self as u32
    }

    // The question is missed at a line.
    pub fn at(self, line: usize) -> Fault
        ensures { (result.question ≡ self) × (result.line ≡ line) }
    {
        Fault {
            question: self,
            line,
        }
    }
}

// The faulty line, or where there is none yet this line, unless the test is met. A flag, since the line is known before the test.
pub fn fault_or(fault: Option<u32>, met: bool, line: u32) -> Option<u32>
    ensures { found result ≡ earlier (found fault) (unless met line) }
{
    fault.or((!met).then_some(line))
}
