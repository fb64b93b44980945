// What is refused, by which number and in which order. These tests change nothing. They take parts: start and mending have no bench, and a
// script's row step has none.
#![tactic(auto)]

ghost use Rattle.std.specs.Prelude.{◌≡◌, ◌&&◌, ◌*◌, ◌<◌, ◌≤◌, length};
ghost use Rattle.fills.specs.Marks.{bits_of};
ghost use Rattle.plans.specs.Answers.{refused_by};
ghost use Rattle.plans.specs.Plan.{plan_of};
ghost use Rattle.plans.specs.Refusal.{all_below, unmarked_below, stripe_fits, words_fit, marks_fit, symbols_fit, sums_fit, level_fits};
ghost use Rattle.plans.specs.Refusal.{lent_refusal, bench_refusal};
ghost use Rattle.plans.specs.Rooms.{column_room, sum_room};
ghost use Rattle.plans.specs.Tables.{Holds, HoldsBench};

use plans::{Refusal, SUMS};

// Whether each symbol is below q. The highest is sought, without a branch for each: so the loop runs on many symbols at once.
pub fn all_below(q: usize, symbols: &[u8]) -> bool
    requires { 0 < q }
    ensures { result ≡ all_below q symbols.now }
{
    let mut most: u8 = 0;
    for symbol in symbols {
        most = most.max(*symbol);
    }
    usize::from(most) < q
}

// Whether each unmarked symbol of a row is below q.
fn row_fits(q: usize, word: u64, row: &[u8]) -> bool
    requires { length row.now ≤ column_room }
    ensures { result ≡ unmarked_below q (bits_of (length row.now) word) row.now }
{
    row.iter().enumerate().all(|(c, symbol)| usize::from(*symbol) < q || words::is_marked(word, c))
}

// Whether no mark bit stands at column N or above.
pub fn marks_fit(plan: usize, marks: &[u64]) -> bool
    requires { (plan_of plan).rows ≤ length marks.now }
    ensures { result ≡ marks_fit (plan_of plan) marks.now }
{
    let facts = tables::facts_of(plan);
    let most = facts.word;
    marks[..facts.rows].iter().all(|word| *word <= most)
}

// Whether each unmarked symbol is below q. Where every symbol is, the marks are not looked at.
pub fn symbols_fit(plan: usize, marks: &[u64], symbols: &[u8]) -> bool
    requires { Holds (plan_of plan) marks.now symbols.now }
    ensures { result ≡ symbols_fit (plan_of plan) marks.now symbols.now }
{
    let facts = tables::facts_of(plan);
    let q = facts.field.size();
    let stripe = &symbols[..facts.symbols];
    if all_below(q, stripe) {
        return true;
    }
    for (word, row) in marks[..facts.rows].iter().zip(stripe.chunks(facts.columns)) {
        if !row_fits(q, *word, row) {
            return false;
        }
    }
    true
}

// Whether each learned sum of levels 1 to `level` is below q. Where the whole room is, the rows are not gone through.
pub fn sums_fit(plan: usize, level: usize, sums: &[u8]) -> bool
    requires { (plan_of plan).rows * sum_room ≤ length sums.now }
    ensures { result ≡ sums_fit (plan_of plan) level sums.now }
{
    let facts = tables::facts_of(plan);
    let q = facts.field.size();
    if all_below(q, sums) {
        return true;
    }
    let count = tables::sums_to(plan, level);
    for row in sums[..facts.rows * SUMS].chunks(SUMS) {
        if !all_below(q, &row[..count]) {
            return false;
        }
    }
    true
}

// Whether a stripe and its mark words have the plan's lengths.
pub fn lengths_fit(plan: usize, stripe: &[u8], marks: &[u64]) -> bool
    ensures { result ≡ (stripe_fits (plan_of plan) stripe.now && words_fit (plan_of plan) marks.now) }
{
    let facts = tables::facts_of(plan);
    stripe.len() == facts.symbols && marks.len() == facts.rows
}

// Whether a bench's level is one of the plan's.
fn level_fits(plan: usize, level: usize) -> bool
    ensures { result ≡ level_fits (plan_of plan) level }
{
    (1..=tables::facts_of(plan).levels).contains(&level)
}

// What start and mending in one call refuse.
pub fn lent_refusal(plan: usize, stripe: &[u8], marks: &[u64]) -> Result<(), Refusal>
    ensures { refused_by result ≡ lent_refusal plan stripe.now marks.now }
{
    if !tables::is_known(plan) {
        return Err(Refusal::UnknownPlan);
    }
    if !lengths_fit(plan, stripe, marks) {
        return Err(Refusal::WrongLength);
    }
    if !marks_fit(plan, marks) {
        return Err(Refusal::MarkBeyondColumns);
    }
    if !symbols_fit(plan, marks, stripe) {
        return Err(Refusal::NoSymbol);
    }
    Ok(())
}

// What a step refuses, by the bench's parts and whether the row number fits. Its tests are others than those of `lent_refusal`, in the same order.
pub fn bench_refusal(
    plan: usize,
    level: usize,
    symbols: &[u8],
    marks: &[u64],
    sums: &[u8],
    row: bool,
) -> Result<(), Refusal>
    requires { HoldsBench (plan_of plan) symbols.now marks.now sums.now }
    ensures { refused_by result ≡ bench_refusal (record { plan = plan; level = level; symbols = symbols.now; marks = marks.now; sums = sums.now }) row }
{
    if !tables::is_known(plan) {
        return Err(Refusal::UnknownPlan);
    }
    if !level_fits(plan, level) {
        return Err(Refusal::NoSuchLevel);
    }
    if !marks_fit(plan, marks) {
        return Err(Refusal::MarkBeyondColumns);
    }
    if !symbols_fit(plan, marks, symbols) || !sums_fit(plan, level, sums) {
        return Err(Refusal::NoSymbol);
    }
    if !row {
        return Err(Refusal::NoSuchRow);
    }
    Ok(())
}
