// The codeword test of plan 3 in its interleaved form. It changes nothing.
#![tactic(auto)]

ghost use Rattle.std.specs.Prelude.{◌≡◌, ◌*◌, ◌≤◌, length};
ghost use Rattle.field.specs.Field.{dot, gf16};
ghost use Rattle.plans.specs.Answers.{numbered};
ghost use Rattle.plans.specs.Plan.{all_ones};
ghost use Rattle.codewords.specs.Asked.{total_row};
ghost use Rattle.interleaved.specs.Interleaved.{rows, columns, is_interleaved, interleaved};
ghost use Rattle.interleaved.specs.Asked.{Weighted, sums_under};

use codewords::codeword;
use field::Gf;
use plans::Refusal;

// The plan and the size of its stripe.
const PLAN: usize = 3;

const ROWS: usize = 8;

const COLUMNS: usize = 15;

// How many numbers the weights of level 2 have.
const WEIGHTS: usize = 2 * ROWS;

// How many power sums, from 0 on, are 0: of a row, of the plain sum of the rows, and of their weighted sum.
const ROW_SUMS: usize = 2;

const PLAIN_SUMS: usize = 7;

const WEIGHTED_SUMS: usize = 3;

// The plain sum of all rows.
fn plain_sum(stripe: &[u8]) -> [u8; COLUMNS]
    requires { rows * columns ≤ length stripe.now }
    ensures { result ≡ total_row gf16 (all_ones rows) columns stripe.now }
{
    let mut sum = [0u8; COLUMNS];
    codeword::add_rows(Gf::Sixteen, &[1; ROWS], stripe, &mut sum);
    sum
}

// The weighted total of the rows' sums under one check: the sum under it of the rows' weighted sum.
fn weighted_total(check: &[u8], weights: &[u8], stripe: &[u8]) -> u8
    requires { Weighted check.now weights.now stripe.now }
    ensures { result ≡ dot gf16 weights.now (sums_under check.now stripe.now) }
{
    let mut total = 0;
    for (weight, row) in weights.iter().zip(stripe.chunks_exact(COLUMNS)) {
        total ^= Gf::Sixteen.product(*weight, Gf::Sixteen.dot(check, row));
    }
    total
}

// Whether a stripe of the plan's length is a codeword. Check p of the plan is power sum p; its level-2 weights are ones for each row, and then a^r for row r.
fn holds(stripe: &[u8]) -> bool
    requires { length stripe.now ≡ rows * columns }
    ensures { result ≡ is_interleaved stripe.now }
{
    if !codeword::rows_hold(PLAN, stripe) {
        return false;
    }
    // the power sums that the rows have are 0 in both sums too
    let checks = tables::checks(PLAN);
    let sum = plain_sum(stripe);
    let plain = &checks[ROW_SUMS * COLUMNS..PLAIN_SUMS * COLUMNS];
    if !codeword::vanishes(Gf::Sixteen, plain, &sum) {
        return false;
    }
    let weights = tables::weights(PLAN, 2);
    let check = &checks[ROW_SUMS * COLUMNS..WEIGHTED_SUMS * COLUMNS];
    weighted_total(check, &weights[ROWS..WEIGHTS], stripe) == 0
}

// Whether a stripe is a codeword of plan 3, by its interleaved form: each row is in the code with power sums 0 and 1, the plain sum of all
// rows in the code with power sums 0 to 6, and the sum of a^r times row r in the code with power sums 0 to 2.
pub fn is_interleaved(stripe: &[u8]) -> Result<bool, Refusal>
    ensures { numbered result ≡ interleaved stripe.now }
{
    let facts = tables::facts_of(PLAN);
    if stripe.len() != facts.symbols {
        return Err(Refusal::WrongLength);
    }
    if !refusals::all_below(facts.field.size(), stripe) {
        return Err(Refusal::NoSymbol);
    }
    Ok(holds(stripe))
}
