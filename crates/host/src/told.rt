ghost use Rattle.std.specs.Prelude.{◌≡◌, ℕ, ◌<◌, ◌^◌, IfSome, MatchResult};
ghost use Rattle.host.specs.Told.{numbered, joined, Fits, WrittenFits, SizeFits, PaysFits, FaultFits, told_either, told_any, told_missed, told_fault, told_written, told_sized, told_paying};

use chooser::Pays;
use digits::Missed;
use recode::Written;
use survey::Fault;
use writer::Sheet;

// What C is told: one number, with the number of the question missed in its high half.
pub trait Told {
    ghost told: { Self → ℕ };
    // Each part fits its bits.
    ghost fits: { Self → Type 0 };

    fn to_bits(self) -> u64
        requires { fits self }
        ensures { result ≡ told self };
}

impl<T: Told, E: Told> Told for Result<T, E> {
    ghost told = { told_either T.told E.told };

    ghost fits = { λ r. MatchResult r T.fits E.fits };

    fn to_bits(self) -> u64 {
        match self {
            Ok(value) => value.to_bits(),
            Err(error) => error.to_bits(),
        }
    }
}

impl<T: Told> Told for Option<T> {
    ghost told = { told_any T.told };

    ghost fits = { λ o. IfSome o T.fits };

    fn to_bits(self) -> u64 {
        match self {
            Some(value) => value.to_bits(),
            None => 0,
        }
    }
}

impl Told for () {
    ghost told = { λ u. 0 };

    ghost fits = { λ u. Unit {0} };

    fn to_bits(self) -> u64 {
        0
    }
}

impl Told for u32 {
    ghost told = { λ n. n };

    ghost fits = { λ n. Unit {0} };

    fn to_bits(self) -> u64 {
        u64::from(self)
    }
}

impl Told for Missed {
    ghost told = { told_missed };

    ghost fits = { λ e. Unit {0} };

    fn to_bits(self) -> u64 {
        numbered(self.number(), 0)
    }
}

impl Told for Fault {
    ghost told = { told_fault };

    ghost fits = { FaultFits };

    fn to_bits(self) -> u64 {
        numbered(self.question.number(), self.line as u32)
    }
}

impl Told for Written {
    ghost told = { told_written };

    ghost fits = { WrittenFits };

    fn to_bits(self) -> u64 {
        join(self.length as u64, self.weight as u64)
    }
}

impl Told for Sheet {
    ghost told = { told_sized };

    ghost fits = { SizeFits };

    fn to_bits(self) -> u64 {
        join(self.length as u64, u64::from(self.additions))
    }
}

impl Told for Pays {
    ghost told = { told_paying };

    ghost fits = { PaysFits };

    fn to_bits(self) -> u64 {
        join(u64::from(self.limit), self.additions)
    }
}

// A length or a limit in bits 0 to 15, and what is counted in bits 16 to 31.
fn join(length: u64, count: u64) -> u64
    requires { Fits length count }
    ensures { result ≡ joined length count }
{
    count * 65536 + length
}

// The number of the question missed in bits 32 to 63, and the rest of the answer below it.
fn numbered(number: u32, rest: u32) -> u64
    ensures { result ≡ numbered number rest }
{
    u64::from(number) * 4294967296 + u64::from(rest)
}
