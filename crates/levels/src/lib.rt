// The level step: the rows' sums of the next level, learned from the rows without marks and from the totals.
#![tactic(auto)]

mod sums;

ghost use Rattle.std.specs.Prelude.{◌≡◌, ◌∷◌, [], map, length};
ghost use Rattle.field.specs.Lists.{up_from};
ghost use Rattle.fills.specs.Marks.{bits_of};
ghost use Rattle.linear.specs.Answer.{answer_of, vector_of};
ghost use Rattle.plans.specs.Answers.{numbered};
ghost use Rattle.plans.specs.Plan.{plan_of};
ghost use Rattle.steps.specs.Steps.{stepped, new_sums, keep_sums, level_fill, level_step_by, level_step};
ghost use Rattle.steps.specs.Parts.{bench_of};
ghost use Rattle.levels.specs.Learned.{column_of, column_fill, learning_of, KeepReady, ColumnLent, LearnReady};

use linear::FillAnswer;
use plans::{Bench, LEARNED, ROWS, Refusal, SUMS, Step, TOTALS};

// How learning a level ends: for some check no sums make all totals zero; for each some do, and the weight columns of the rows with
// marks are dependent; or all rows' sums are learned.
#[derive(Clone, Copy, PartialEq, Eq)]
pub enum Learning {
    Failing,
    Blocked,
    Learned,
}

// Writes the rows' sums under check `at` to each row's place for them.
fn keep_column(at: usize, column: &[u8], sums: &mut [u8])
    requires { KeepReady at column.now sums.old }
    ensures { sums.new ≡ keep_sums at (map (new_sums (column.now ∷ [])) (up_from 0 (length column.now))) sums.old }
{
    for (r, sum) in column.iter().enumerate() {
        sums[r * SUMS + at] = *sum;
    }
}

// The rows' sums under check j, of level + 1: the rows without marks give their own, and the others are filled so that all totals
// are zero. `column` becomes them, as far as the answer is One.
fn learn_column(
    plan: usize,
    level: usize,
    symbols: &[u8],
    lossy: u64,
    j: usize,
    column: &mut [u8],
) -> FillAnswer
    requires { ColumnLent (bench_of plan level symbols.now [] []) lossy j column.old }
    ensures value { result ≡ answer_of (column_fill (bench_of plan level symbols.now [] []) (bits_of (plan_of plan).rows lossy) j) }
    ensures column_after { column.new
        ≡ vector_of (column_fill (bench_of plan level symbols.now [] []) (bits_of (plan_of plan).rows lossy) j)
        (column_of (bench_of plan level symbols.now [] []) j) }
{
    let facts = tables::facts_of(plan);
    let q = facts.field;
    let n = facts.columns;
    let checks = tables::checks(plan);
    let weights = tables::weights(plan, level + 1);
    let totals = tables::totals(plan, level + 1);
    let target = [0u8; TOTALS];
    let start = j * n;
    let end = start + n;
    sums::across(q, &checks[start..end], symbols, column);
    linear::fill(q, weights, &target[..totals], column, lossy)
}

// Learns the sums of level + 1 of all rows of a bench by its parts, check by check, behind those learned before. Where the answer is another
// than Learned the sums stay as they were.
pub fn learn(plan: usize, level: usize, symbols: &[u8], marks: &[u64], sums: &mut [u8]) -> Learning
    requires { LearnReady (bench_of plan level symbols.now marks.now sums.old) }
    ensures value { result ≡ learning_of (level_fill (bench_of plan level symbols.now marks.now sums.old)) }
    ensures sums_after { sums.new
        ≡ (level_step_by (bench_of plan level symbols.now marks.now sums.old)
        (level_fill (bench_of plan level symbols.now marks.now sums.old))).bench.sums }
{
    let rows = tables::facts_of(plan).rows;
    let totals = tables::totals(plan, level + 1);
    let first = tables::sums_to(plan, level);
    let last = tables::sums_to(plan, level + 1);
    let lossy = sums::lossy_word(rows, marks);
    // more columns than totals are dependent, and some sums make all totals zero
    if totals < u64::count_ones(lossy) as usize {
        return Learning::Blocked;
    }
    // the new sums are kept aside until all are learned
    let size = rows * SUMS;
    let mut places = [0u8; LEARNED];
    let kept = &mut places[..size];
    kept.copy_from_slice(&sums[..size]);
    for j in first..last {
        let mut room = [0u8; ROWS];
        let column = &mut room[..rows];
        match learn_column(plan, level, symbols, lossy, j, column) {
            FillAnswer::None => return Learning::Failing,
            // dependent columns leave no check without its filling
            FillAnswer::Tied => return Learning::Blocked,
            FillAnswer::One => keep_column(j, column, kept),
        }
    }
    sums[..size].copy_from_slice(kept);
    Learning::Learned
}

// The level step: all rows' sums of the next level are learned and the level rises by one, or nothing changes.
pub fn level_step(bench: &mut Bench) -> Result<Step, Refusal>
    ensures { stepped bench.new (numbered result) ≡ level_step bench.old }
{
    refusals::bench_refusal(
        bench.plan,
        bench.level,
        &bench.symbols,
        &bench.marks,
        &bench.sums,
        true,
    )?;
    let facts = tables::facts_of(bench.plan);
    if facts.levels <= bench.level {
        return Ok(Step::Top);
    }
    let learning = learn(
        bench.plan,
        bench.level,
        &bench.symbols,
        &bench.marks,
        &mut bench.sums,
    );
    match learning {
        Learning::Failing => Ok(Step::Clash),
        Learning::Blocked => Ok(Step::Blocked),
        Learning::Learned => {
            bench.level += 1;
            Ok(Step::Raised)
        }
    }
}
