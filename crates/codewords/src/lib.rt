// The codeword test.
#![tactic(auto)]

pub mod codeword;

ghost use Rattle.std.specs.Prelude.{◌≡◌};
ghost use Rattle.plans.specs.Answers.{numbered};
ghost use Rattle.codewords.specs.Codeword.{tested};

use plans::Refusal;

// Whether a stripe is a codeword: every row's level-1 sums are zero, and so are the totals of every further level.
pub fn is_codeword(plan: usize, stripe: &[u8]) -> Result<bool, Refusal>
    ensures { numbered result ≡ tested plan stripe.now }
{
    if !tables::is_known(plan) {
        return Err(Refusal::UnknownPlan);
    }
    let facts = tables::facts_of(plan);
    if stripe.len() != facts.symbols {
        return Err(Refusal::WrongLength);
    }
    if !refusals::all_below(facts.field.size(), stripe) {
        return Err(Refusal::NoSymbol);
    }
    Ok(codeword::holds(plan, stripe))
}
