// The number of each answer. For our own crates, not for scripts.
#![tactic(auto)]

ghost use Rattle.std.specs.Prelude.{◌≡◌, ℕ};
ghost use Rattle.plans.specs.Answers.{answer_number, step_number, verdict_number, refusal_number, as_number, numbered};
ghost use Rattle.numbers.specs.Numbers.{unfit};

use plans::{Answer, Refusal, Step};

// What has a number to be told by.
pub trait Numbered {
    ghost number: { Self → ℕ };

    fn number(self) -> usize
        ensures { result ≡ number self };
}

// What start, encoding, extraction, and reading and writing a file answer.
impl Numbered for () {
    ghost number = { λ _. 0 };

    fn number(self) -> usize {
        0
    }
}

// What the codeword test answers.
#[tactic(auto, unfolding(plans::specs::Answers::verdict_number))]
impl Numbered for bool {
    ghost number = { verdict_number };

    fn number(self) -> usize {
        if self { 0 } else { 1 }
    }
}

// What a step answers.
#[tactic(auto, unfolding(plans::specs::Answers::step_number))]
impl Numbered for Step {
    ghost number = { step_number };

    fn number(self) -> usize {
        match self {
            Step::Whole => 3,
            Step::Filled => 4,
            Step::Tied => 5,
            Step::Raised => 6,
            Step::Blocked => 7,
            Step::Top => 8,
            Step::Clash => 2,
        }
    }
}

// What mending in one call answers.
#[tactic(auto, unfolding(plans::specs::Answers::answer_number))]
impl Numbered for Answer {
    ghost number = { answer_number };

    fn number(self) -> usize {
        match self {
            Answer::Restored => 0,
            Answer::Stuck => 1,
            Answer::Clash(_) => 2,
        }
    }
}

// Why a call is refused.
#[tactic(auto, unfolding(plans::specs::Answers::refusal_number))]
impl Numbered for Refusal {
    ghost number = { refusal_number };

    fn number(self) -> usize {
        usize::from(self)
    }
}

// What a call answers that may be refused.
#[tactic(auto, unfolding(plans::specs::Answers::as_number, plans::specs::Answers::numbered))]
impl<T: Numbered> Numbered for Result<T, Refusal> {
    ghost number = { λ told. as_number T.number (numbered told) };

    fn number(self) -> usize {
        match self {
            Ok(answer) => answer.number(),
            Err(refusal) => refusal.number(),
        }
    }
}

// What a buffer of a wrong size is refused by.
pub fn unfit(plan: usize) -> Refusal
    ensures { refusal_number result ≡ unfit plan }
{
    if tables::is_known(plan) {
        return Refusal::WrongLength;
    }
    Refusal::UnknownPlan
}
