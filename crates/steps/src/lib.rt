// A bench started.
#![tactic(auto)]

ghost use Rattle.std.specs.Prelude.{◌≡◌};
ghost use Rattle.plans.specs.Answers.{numbered};
ghost use Rattle.plans.specs.Refusal.{lent_refusal};
ghost use Rattle.steps.specs.Steps.{fresh, empty, stepped, started};

use plans::{Bench, Refusal};

// Makes of a bench of zeros one at level 1 that holds the stripe and the marks as lent, all sums zero.
pub fn make_fresh(plan: usize, stripe: &[u8], marks: &[u64], bench: &mut Bench)
    requires fits { lent_refusal plan stripe.now marks.now ≡ 0 }
    requires blank { bench.old ≡ empty }
    ensures { bench.new ≡ fresh plan stripe.now marks.now }
{
    bench.plan = plan;
    bench.level = 1;
    bench.symbols[..stripe.len()].copy_from_slice(stripe);
    bench.marks[..marks.len()].copy_from_slice(marks);
}

// Makes a bench at level 1 that holds the stripe and the marks as lent, all sums zero; or, where they are refused, a bench of zeros.
// Stripe and marks stay as they are.
pub fn start(plan: usize, stripe: &[u8], marks: &[u64], bench: &mut Bench) -> Result<(), Refusal>
    ensures { stepped bench.new (numbered result) ≡ started plan stripe.now marks.now }
{
    *bench = Bench::EMPTY;
    refusals::lent_refusal(plan, stripe, marks)?;
    make_fresh(plan, stripe, marks, bench);
    Ok(())
}
