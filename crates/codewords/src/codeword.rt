// The codeword test: the rows' level-1 sums and each level's weighted totals. It changes nothing.
ghost use Rattle.std.specs.Prelude.{◌≡◌, map, ◌*◌, ◌≤◌, ◌<◌, length};
ghost use mathlib.Core.List.{flat_map};
ghost use Rattle.field.specs.Field.{mul};
ghost use Rattle.field.specs.Ours.{field_of};
ghost use Rattle.fills.specs.Lists.{vanish, plus};
ghost use Rattle.fills.specs.Fill.{sums_of};
ghost use Rattle.plans.specs.Plan.{plan_of, level_of};
ghost use Rattle.codewords.specs.Codeword.{rows_hold, totals_hold, is_codeword};
ghost use Rattle.codewords.specs.Asked.{all_rows, with_rows};

use field::Gf;
use plans::COLUMNS;

// Whether each check gives 0 with v. The checks stand one behind the other, each as long as v.
pub fn vanishes(q: Gf, checks: &[u8], v: &[u8]) -> bool
    ensures { result ≡ vanish (sums_of (field_of q) (all_rows (length v.now) checks.now) v.now) }
{
    if v.is_empty() {
        return true;
    }
    for check in checks.chunks_exact(v.len()) {
        if q.dot(check, v) != 0 {
            return false;
        }
    }
    true
}

// The row checks of a level, one behind the other.
fn level_checks(plan: usize, level: usize) -> &'static [u8]
    requires { 1 ≤ level }
    ensures { result.now ≡ flat_map (λ row. row) (level_of (plan_of plan) level).checks }
{
    let columns = tables::facts_of(plan).columns;
    let first = tables::sums_to(plan, level - 1) * columns;
    let last = tables::sums_to(plan, level) * columns;
    &tables::checks(plan)[first..last]
}

// A stripe's length is asked by each of these: a type that knew it would have to know the plan.

// Whether every row's level-1 sums are zero, row by row.
pub fn rows_hold(plan: usize, stripe: &[u8]) -> bool
    requires { (plan_of plan).rows * (plan_of plan).columns ≤ length stripe.now }
    ensures { result ≡ rows_hold (plan_of plan) stripe.now }
{
    let facts = tables::facts_of(plan);
    let columns = facts.columns;
    let checks = level_checks(plan, 1);
    // by number: a plan that is none has rows of no columns, which are no chunks
    for r in 0..facts.rows {
        let start = r * columns;
        if !vanishes(facts.field, checks, &stripe[start..start + columns]) {
            return false;
        }
    }
    true
}

// A symbol times its row's weight. Under weight 1 it makes no product: the field's bits count.
fn weighted(q: Gf, weight: u8, symbol: u8) -> u8
    ensures { result ≡ mul (field_of q) weight symbol }
{
    if weight == 1 {
        let bits = match q {
            Gf::Two => 1,
            Gf::Sixteen => 15,
            Gf::Bytes => 255,
        };
        symbol & bits
    } else {
        q.product(weight, symbol)
    }
}

// Adds each symbol of a row, times the row's weight, to the total. The row is as long as the total.
fn add_row(q: Gf, weight: u8, row: &[u8], total: &mut [u8])
    requires { length row.now ≡ length total.old }
    ensures { total.new ≡ plus total.old (map (mul (field_of q) weight) row.now) }
{
    // by place: of what an adapter of `iter_mut` writes a proof learns nothing
    for (c, symbol) in row.iter().enumerate() {
        total[c] ^= weighted(q, weight, *symbol);
    }
}

// Adds rows, one behind the other, to the total, each times its weight. A row is as long as the total.
pub fn add_rows(q: Gf, weights: &[u8], symbols: &[u8], total: &mut [u8])
    requires { length weights.now * length total.old ≤ length symbols.now }
    ensures { total.new ≡ with_rows (field_of q) weights.now (length total.old) symbols.now total.old }
{
    // rows by number: those of no columns are no chunks
    let columns = total.len();
    for (r, weight) in weights.iter().enumerate() {
        let start = r * columns;
        add_row(q, *weight, &symbols[start..start + columns], total);
    }
}

// Whether each weighted total of the rows' sums at a level is zero: these are the sums of the rows' weighted totals.
fn totals_hold(plan: usize, level: usize, stripe: &[u8]) -> bool
    requires long { (plan_of plan).rows * (plan_of plan).columns ≤ length stripe.now }
    requires above { 1 ≤ level }
    requires within { level ≤ length (plan_of plan).levels }
    ensures { result ≡ totals_hold (plan_of plan) stripe.now (level_of (plan_of plan) level) }
{
    let facts = tables::facts_of(plan);
    let checks = level_checks(plan, level);
    for weights in tables::weights(plan, level).chunks_exact(facts.rows) {
        let mut room = [0u8; COLUMNS];
        let total = &mut room[..facts.columns];
        add_rows(facts.field, weights, stripe, total);
        if !vanishes(facts.field, checks, total) {
            return false;
        }
    }
    true
}

// Whether a stripe of the plan's length is a codeword: first the rows, then the totals of every level from 2 on.
pub fn holds(plan: usize, stripe: &[u8]) -> bool
    requires { (plan_of plan).rows * (plan_of plan).columns ≤ length stripe.now }
    ensures { result ≡ is_codeword (plan_of plan) stripe.now }
{
    if !rows_hold(plan, stripe) {
        return false;
    }
    for level in 2..=tables::facts_of(plan).levels {
        if !totals_hold(plan, level, stripe) {
            return false;
        }
    }
    true
}
