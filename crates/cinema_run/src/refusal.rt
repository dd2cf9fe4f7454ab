// Why a frame is refused.
ghost use Rattle.std.specs.Prelude.{◌≡◌, IsSome};
ghost use Rattle.cert_text.specs.Refusals.{word_of};
ghost use Rattle.cinema_run.specs.Refused.{budget_of, code_of, fault_numbers, numbers_of};

use arrayvec::ArrayVec;
use cine_nums::Budget;
use pnm_frames::FrameFault;

/// Why a frame is refused: what its line says.
#[derive(Clone, Copy, Debug, PartialEq, Eq)]
pub enum Refusal {
    /// Its file is no frame, by this first fault.
    File(FrameFault),
    /// The limit of this budget is too small for it: without any coding pass its codestream holds
    /// so many bytes there.
    Limit(Budget, u32),
}

/// The place or the number of bytes of a fault, if it has one.
fn fault_numbers(fault: FrameFault) -> ArrayVec<u64, 2>
    ensures { result.items ≡ fault_numbers fault }
{
    let mut numbers = ArrayVec::new();
    match fault {
        FrameFault::BadHeader(n) | FrameFault::SampleTooLarge(n) | FrameFault::Truncated(n) => {
            numbers.push(u64::from(n));
        }
        _ => {}
    }
    numbers
}

impl Refusal {
    /// The number of the refusal.
    pub fn code(self) -> u8
        ensures value { result ≡ code_of self }
        ensures named { IsSome (word_of result) }
    {
        match self {
            Refusal::File(fault) => fault.number(),
            Refusal::Limit(..) => 10,
        }
    }

    /// The budget that the line names, if it names one.
    pub fn budget(self) -> Option<Budget>
        ensures { result ≡ budget_of self }
    {
        match self {
            Refusal::File(_) => None,
            Refusal::Limit(budget, _) => Some(budget),
        }
    }

    /// The place or the number of bytes that the line has, if it has one.
    pub fn numbers(self) -> ArrayVec<u64, 2>
        ensures { result.items ≡ numbers_of self }
    {
        match self {
            Refusal::File(fault) => fault_numbers(fault),
            Refusal::Limit(_, needed) => {
                let mut numbers = ArrayVec::new();
                numbers.push(u64::from(needed));
                numbers
            }
        }
    }
}
