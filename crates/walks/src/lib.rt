// The rows of a round: row steps on one after the other, and whether any of them can change anything.
#![tactic(auto)]

ghost use Rattle.std.specs.Prelude.{◌≡◌, ◌*◌, ◌≤◌, ◌<◌, ltb, length, get_or};
ghost use Rattle.std.specs.Int.Count.{ones};
ghost use Rattle.std.specs.List.{list_all};
ghost use Rattle.fills.specs.Fill.{sums_of};
ghost use Rattle.plans.specs.Plan.{plan_of, checks_to, row_at};
ghost use Rattle.steps.specs.Parts.{bench_of};
ghost use Rattle.walks.specs.Walk.{over_marked, Walked, WalkReady};

use field::Gf;
use linear::FillAnswer;
use plans::SUMS;

// The sum of row `row` under check j of levels 1 to t.
fn check_sum(plan: usize, level: usize, symbols: &[u8], row: usize, j: usize) -> u8
    requires room { (plan_of plan).rows * (plan_of plan).columns ≤ length symbols.now }
    requires inside { row < (plan_of plan).rows }
    requires below { j < length (checks_to (plan_of plan) level) }
    ensures { result ≡ get_or (sums_of (plan_of plan).field (checks_to (plan_of plan) level) (row_at (plan_of plan) symbols.now row)) j 0 }
{
    let facts = tables::facts_of(plan);
    let checks = tables::checks(plan);
    let n = facts.columns;
    let first = j * n;
    let last = first + n;
    let start = row * n;
    let end = start + n;
    facts.field.dot(&checks[first..last], &symbols[start..end])
}

// Whether each mark word has more marks than there are sums.
fn all_over(sums: usize, words: &[u64]) -> bool
    ensures { result ≡ list_all (λ w. ltb sums (ones w)) words.now }
{
    words
        .iter()
        .all(|word| sums < u64::count_ones(*word) as usize)
}

// Whether every row has more marks than sums at level 1, in a plan in which such a row is tied whatever its symbols: then no step changes
// anything. Of the rows of bits only those with one parity are so.
pub fn over_marked(plan: usize, marks: &[u64]) -> bool
    requires { (plan_of plan).rows ≤ length marks.now }
    ensures { result ≡ over_marked (plan_of plan) marks.now }
{
    let facts = tables::facts_of(plan);
    let sums = tables::sums_to(plan, 1);
    if facts.field == Gf::Two && sums != 1 {
        return false;
    }
    all_over(sums, &marks[..facts.rows])
}

// Where the walk over a round's rows ended: at the first row whose checks fail, if there is one; and how many rows it filled.
#[derive(Clone, Copy)]
pub struct Walk {
    pub clash: Option<usize>,
    pub filled: usize,
}

// Row steps on rows 0 to R - 1 of a bench by its parts, up to the first row whose checks fail. A row without marks is tested at level 1 alone.
pub fn walk_rows(
    plan: usize,
    level: usize,
    symbols: &mut [u8],
    marks: &mut [u64],
    sums: &[u8],
) -> Walk
    requires { WalkReady (bench_of plan level symbols.old marks.old sums.now) }
    ensures { Walked (bench_of plan level symbols.old marks.old sums.now) (bench_of plan level symbols.new marks.new sums.now) result.clash result.filled }
{
    let rows = tables::facts_of(plan).rows;
    let sums_1 = tables::sums_to(plan, 1);
    // above level 1 a row without marks has the sums that are learned for it
    let count = if level == 1 { sums_1 } else { 0 };
    let mut filled = 0;
    let clash = 'rows: {
        for row in 0..rows {
            let word = marks[row];
            if word == 0 {
                for j in 0..count {
                    if check_sum(plan, level, symbols, row, j) != sums[row * SUMS + j] {
                        break 'rows Some(row);
                    }
                }
            } else {
                match rows::fill_row(plan, level, symbols, word, sums, row) {
                    FillAnswer::None => break 'rows Some(row),
                    FillAnswer::Tied => {}
                    FillAnswer::One => {
                        marks[row] = 0;
                        filled += 1;
                    }
                }
            }
        }
        None
    };
    Walk { clash, filled }
}
