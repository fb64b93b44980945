// Facts of a plan by its number, and its tables of row checks, weights and check places. What is a plan's own stands in its file. A number
// that is no plan's has the plan with nothing in it.
#![tactic(auto)]

mod plan_1;
mod plan_2;
mod plan_3;
mod plan_4;
mod plan_5;

ghost use Rattle.std.specs.Prelude.{◌≡◌, length};
ghost use Rattle.plans.specs.Plan.{plan_of, known, level_of, checks_to};
ghost use Rattle.plans.specs.Tables.{check_table, weight_table};
ghost use Rattle.tables.specs.Tables.{FactsOf};

use field::Gf;

// A plan's numbers. A stripe has so many `symbols`; `word` is the largest mark word, and a file has `word_bytes` bytes for one; `sums` has
// how many sums a row has at levels 1 to t, and `totals` how many weighted totals level t has, both for t from 0 to 3.
#[derive(Clone, Copy)]
pub struct Facts {
    pub field: Gf,
    pub rows: usize,
    pub columns: usize,
    pub symbols: usize,
    pub word: u64,
    pub word_bytes: usize,
    pub levels: usize,
    pub sums: [usize; 4],
    pub totals: [usize; 4],
    pub carried: usize,
    pub file_length: usize,
}

const NO_PLAN: Facts = Facts {
    field: Gf::Two,
    rows: 0,
    columns: 0,
    symbols: 0,
    word: 0,
    word_bytes: 4,
    levels: 0,
    sums: [0, 0, 0, 0],
    totals: [0, 0, 0, 0],
    carried: 0,
    file_length: 8,
};

// The facts of a plan.
pub fn facts_of(plan: usize) -> Facts
    ensures { FactsOf (plan_of plan) result }
{
    match plan {
        1 => plan_1::FACTS,
        2 => plan_2::FACTS,
        3 => plan_3::FACTS,
        4 => plan_4::FACTS,
        5 => plan_5::FACTS,
        _ => NO_PLAN,
    }
}

// Whether there is a plan of this number.
pub fn is_known(plan: usize) -> bool
    ensures { result ≡ known plan }
{
    0 < facts_of(plan).rows
}

// How many sums a row has at levels 1 to `level`.
pub fn sums_to(plan: usize, level: usize) -> usize
    ensures { result ≡ length (checks_to (plan_of plan) level) }
{
    facts_of(plan).sums[level.min(3)]
}

// How many weighted totals a level has.
pub fn totals(plan: usize, level: usize) -> usize
    ensures { result ≡ length (level_of (plan_of plan) level).weights }
{
    facts_of(plan).totals.get(level).copied().unwrap_or(0)
}

// ---- tables

// The row checks of all levels, one behind the other.
pub fn checks(plan: usize) -> &'static [u8]
    ensures { result.now ≡ check_table (plan_of plan) }
{
    match plan {
        1 => &plan_1::CHECKS,
        2 => &plan_2::CHECKS,
        3 => &plan_3::CHECKS,
        4 => &plan_4::CHECKS,
        5 => &plan_5::CHECKS,
        _ => &[],
    }
}

// Weights, one total behind the other: the plain total of 3, 8 and 12 rows; and of 8 rows and of 12 with it that of weights a ^ r, of 12
// also that of a ^ (2 r).
static PLAIN_3: [u8; 3] = *b"\x01\x01\x01";

static PLAIN_8: [u8; 8] = *b"\x01\x01\x01\x01\x01\x01\x01\x01";

static LOCATED_8: [u8; 16] = *b"\
    \x01\x01\x01\x01\x01\x01\x01\x01\
    \x01\x02\x04\x08\x03\x06\x0c\x0b";

static PLAIN_12: [u8; 12] = *b"\x01\x01\x01\x01\x01\x01\x01\x01\x01\x01\x01\x01";

static LOCATED_12: [u8; 36] = *b"\
    \x01\x01\x01\x01\x01\x01\x01\x01\x01\x01\x01\x01\
    \x01\x02\x04\x08\x10\x20\x40\x80\x1d\x3a\x74\xe8\
    \x01\x04\x10\x40\x1d\x74\xcd\x13\x4c\x2d\xb4\xea";

// The weights of a level, one total behind the other.
pub fn weights(plan: usize, level: usize) -> &'static [u8]
    ensures { result.now ≡ weight_table (plan_of plan) level }
{
    match (plan, level) {
        (1, 2) => &PLAIN_3,
        (2, 2) => &PLAIN_8,
        (2, 3) => &PLAIN_8,
        (3, 2) => &LOCATED_8,
        (3, 3) => &PLAIN_8,
        (4, 2) => &LOCATED_12,
        (4, 3) => &PLAIN_12,
        (5, 2) => &PLAIN_8,
        (5, 3) => &PLAIN_8,
        _ => &[],
    }
}

// The mark words of the check places.
pub fn check_places(plan: usize) -> &'static [u64]
    ensures { result.now ≡ (plan_of plan).check_places }
{
    match plan {
        1 => &plan_1::PLACES,
        2 => &plan_2::PLACES,
        3 => &plan_3::PLACES,
        4 => &plan_4::PLACES,
        5 => &plan_5::PLACES,
        _ => &[],
    }
}
