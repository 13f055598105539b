// Document 01's numbers of what planning and the run refuse.
ghost use Rattle.std.specs.Prelude.{◌≡◌};
ghost use Rattle.answers.specs.Answers.{refusal_of};
ghost use Rattle.answers.specs.Runs.{reason_number};
ghost use Rattle.numbers.specs.Numbered.{refusal_by};

use answers::{Refusal, RunReason};

// A refusal's number and step.
#[derive(Clone, Copy)]
pub struct NumberAndStep {
    pub number: usize,
    pub step: usize,
}

// The number and step of what planning refuses.
pub fn number_and_step(r: Refusal) -> NumberAndStep
    ensures { refusal_by result ≡ refusal_of r }
{
    match r {
        Refusal::Limits => NumberAndStep { number: 1, step: 0 },
        Refusal::Height => NumberAndStep {
            number: 25,
            step: 0,
        },
        Refusal::Starts => NumberAndStep { number: 2, step: 0 },
        Refusal::Column => NumberAndStep { number: 3, step: 0 },
        Refusal::Order => NumberAndStep { number: 4, step: 0 },
        Refusal::Diagonal => NumberAndStep { number: 5, step: 0 },
        Refusal::Stores => NumberAndStep { number: 6, step: 0 },
        Refusal::LowerRoom(step) => NumberAndStep { number: 7, step },
        Refusal::UpperRoom(step) => NumberAndStep { number: 8, step },
        Refusal::OtherPlan => NumberAndStep { number: 9, step: 0 },
    }
}

// The number of the reason why a run stopped.
pub fn number_of(reason: RunReason) -> usize
    ensures { result ≡ reason_number reason }
{
    match reason {
        RunReason::Limits => 1,
        RunReason::Height => 25,
        RunReason::Starts => 2,
        RunReason::Column => 3,
        RunReason::Order => 4,
        RunReason::Diagonal => 5,
        RunReason::Stores => 6,
        RunReason::Tall => 26,
        RunReason::OtherPlan => 9,
        RunReason::Lending => 10,
        RunReason::Values => 11,
        RunReason::RowList => 12,
        RunReason::NoPivot => 13,
        RunReason::NotFinite => 14,
    }
}
