// Row steps: a row filled, and the row step of a bench.
#![tactic(auto)]

ghost use Rattle.std.specs.Prelude.{◌≡◌, ◌*◌};
ghost use Rattle.std.proofs.lemmas.List.Edits.{sets};
ghost use Rattle.linear.specs.Answer.{answer_of, vector_of};
ghost use Rattle.plans.specs.Answers.{numbered};
ghost use Rattle.plans.specs.Plan.{plan_of, row_at};
ghost use Rattle.plans.specs.Tables.{HoldsBench};
ghost use Rattle.steps.specs.Steps.{stepped, row_step};
ghost use Rattle.steps.specs.Parts.{bench_of};
ghost use Rattle.rows.specs.Filled.{fill_at, RowReady};

use field::Gf;
use linear::FillAnswer;
use plans::{Bench, Refusal, SUMS, Step};

// Both by the parts of a bench: a script's row step fills the symbols where they stand in its buffer, which a bench read and written missed by
// a third.

// Fills row `row`, whose marks are `word`, by the checks of levels 1 to t and its learned sums; or leaves the symbols as they were.
pub fn fill_row(
    plan: usize,
    level: usize,
    symbols: &mut [u8],
    word: u64,
    sums: &[u8],
    row: usize,
) -> FillAnswer
    requires { RowReady plan level symbols.old sums.now word row }
    ensures value { result ≡ answer_of (fill_at (plan_of plan) level sums.now word symbols.old row) }
    ensures symbols_after { symbols.new
        ≡ sets symbols.old (row * (plan_of plan).columns)
        (vector_of (fill_at (plan_of plan) level sums.now word symbols.old row) (row_at (plan_of plan) symbols.old row)) }
{
    let facts = tables::facts_of(plan);
    let q = facts.field;
    let n = facts.columns;
    let m = tables::sums_to(plan, level);
    // in a row of power sums any sums are met by more columns than sums, and by more than one filling
    if q != Gf::Two && m < u64::count_ones(word) as usize {
        return FillAnswer::Tied;
    }
    let checks = tables::checks(plan);
    let size = m * n;
    let start = row * n;
    let end = start + n;
    let first = row * SUMS;
    let last = first + m;
    linear::fill(
        q,
        &checks[..size],
        &sums[first..last],
        &mut symbols[start..end],
        word,
    )
}

// The row step on the parts of a bench: symbols and marks become those of the bench that it leaves; plan, level and sums stay.
pub fn step_row(
    plan: usize,
    level: usize,
    symbols: &mut [u8],
    marks: &mut [u64],
    sums: &[u8],
    row: usize,
) -> Result<Step, Refusal>
    requires { HoldsBench (plan_of plan) symbols.old marks.old sums.now }
    ensures { stepped (bench_of plan level symbols.new marks.new sums.now) (numbered result)
        ≡ row_step (bench_of plan level symbols.old marks.old sums.now) row }
{
    let facts = tables::facts_of(plan);
    let inside = row < facts.rows;
    refusals::bench_refusal(plan, level, symbols, marks, sums, inside)?;
    let word = marks[row];
    match fill_row(plan, level, symbols, word, sums, row) {
        FillAnswer::None => Ok(Step::Clash),
        FillAnswer::Tied => Ok(Step::Tied),
        FillAnswer::One => {
            marks[row] = 0;
            if word == 0 {
                Ok(Step::Whole)
            } else {
                Ok(Step::Filled)
            }
        }
    }
}

// The row step: a row's marked symbols are filled and its marks cleared, or nothing changes.
pub fn row_step(bench: &mut Bench, row: usize) -> Result<Step, Refusal>
    ensures { stepped bench.new (numbered result) ≡ row_step bench.old row }
{
    step_row(
        bench.plan,
        bench.level,
        &mut bench.symbols,
        &mut bench.marks,
        &bench.sums,
        row,
    )
}
