ghost use Rattle.std.specs.Prelude.{Err};
ghost use Rattle.digits.specs.Limits.{card};
ghost use Rattle.sheet.specs.Answer.{answer};
ghost use Rattle.reader.specs.Judgement.{judgement};
ghost use Rattle.reader.specs.Text.{Holds, answer_line};

use crate::text::Text;
use digits::Card;
use survey::Fault;

// The line of a refusal.
fn refusal(fault: Fault) -> Text
    ensures { Holds result (answer_line (judgement (Err fault))) }
{
    let end = Text::empty().with(b'\n');
    let place = end.with_decimal(fault.line as u64).with(b',');
    let number = fault.question.number();
    place.with_decimal(number as u64).with(b',').with(b'N')
}

// The line that answers a sheet: `Y`, or `N,number,line`, each with its line feed.
pub fn verdict(sheet: &[u8]) -> Text
    ensures { Holds result (answer_line (answer card sheet.now)) }
{
    match crate::judge::read::<Card, _>(sheet) {
        Ok(()) => Text::empty().with(b'\n').with(b'Y'),
        Err(fault) => refusal(fault),
    }
}
