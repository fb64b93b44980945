// Encoding and extraction: the tests that they share, and data placed at the places that are not check places and taken from there.
ghost use Rattle.std.specs.Prelude.{◌≡◌, ◌&&◌, eqb, length};
ghost use Rattle.std.proofs.lemmas.List.Edits.{sets};
ghost use Rattle.fills.specs.Marks.{bits_of};
ghost use Rattle.plans.specs.Answers.{refused_by};
ghost use Rattle.plans.specs.Plan.{plan_of, marks_of, carried};
ghost use Rattle.plans.specs.Refusal.{stripe_fits};
ghost use Rattle.plans.specs.Tables.{unmarked};
ghost use Rattle.encoding.specs.Data.{placed, taken, encode_refusal, extract_refusal};
ghost use Rattle.encoding.specs.Asked.{RowFits, Fits};

use codewords::codeword;
use plans::Refusal;

// ---- refusals

// Whether data and stripe have the plan's lengths. One comparison is that of `refusals::lengths_fit`, the other of another list.
fn lengths_fit(plan: usize, data: &[u8], stripe: &[u8]) -> bool
    ensures { result ≡ (eqb (length «data».now) (carried (plan_of plan)) && stripe_fits (plan_of plan) stripe.now) }
{
    let facts = tables::facts_of(plan);
    data.len() == facts.carried && stripe.len() == facts.symbols
}

// What encoding refuses. Of the stripe only the length is looked at.
pub fn encode_refusal(plan: usize, data: &[u8], stripe: &[u8]) -> Result<(), Refusal>
    ensures { refused_by result ≡ encode_refusal plan «data».now stripe.now }
{
    if !tables::is_known(plan) {
        return Err(Refusal::UnknownPlan);
    }
    if !lengths_fit(plan, data, stripe) {
        return Err(Refusal::WrongLength);
    }
    if !refusals::all_below(tables::facts_of(plan).field.size(), data) {
        return Err(Refusal::NoSymbol);
    }
    Ok(())
}

// What extraction refuses. Of the data only the length is looked at.
pub fn extract_refusal(plan: usize, stripe: &[u8], data: &[u8]) -> Result<(), Refusal>
    ensures { refused_by result ≡ extract_refusal plan stripe.now «data».now }
{
    if !tables::is_known(plan) {
        return Err(Refusal::UnknownPlan);
    }
    if !lengths_fit(plan, data, stripe) {
        return Err(Refusal::WrongLength);
    }
    if !refusals::all_below(tables::facts_of(plan).field.size(), stripe) {
        return Err(Refusal::NoSymbol);
    }
    if !codeword::holds(plan, stripe) {
        return Err(Refusal::NoCodeword);
    }
    Ok(())
}

// ---- data

// Writes data to a row's unmarked columns, in order, and 0 to the marked ones; answers how many it wrote. What stood in the row is not read.
fn place_row(word: u64, data: &[u8], row: &mut [u8]) -> usize
    requires { RowFits word row.old «data».now }
    ensures value { result ≡ unmarked (bits_of (length row.old) word) }
    ensures row_after { row.new ≡ placed (bits_of (length row.old) word) «data».now }
{
    let mut next = 0;
    for (c, symbol) in row.iter_mut().enumerate() {
        if words::is_marked(word, c) {
            *symbol = 0;
        } else {
            *symbol = data[next];
            next += 1;
        }
    }
    next
}

// Writes data to a stripe's unmarked places, row by row, and 0 to the marked ones. What stood in the stripe is not read.
pub fn place(plan: usize, words: &[u64], data: &[u8], stripe: &mut [u8])
    requires { Fits (plan_of plan) words.now «data».now stripe.old }
    ensures { stripe.new ≡ placed (marks_of (plan_of plan) words.now) «data».now }
{
    let columns = tables::facts_of(plan).columns;
    let mut next = 0;
    for (r, word) in words.iter().enumerate() {
        let start = r * columns;
        next += place_row(*word, &data[next..], &mut stripe[start..start + columns]);
    }
}

// No case of one function with `place_row`: that one writes the row where this one reads it, and is lent it otherwise.
// Writes the symbols of a row's unmarked columns to the front of the data, in order; answers how many it wrote. The data behind them stays as it is.
fn take_row(word: u64, row: &[u8], data: &mut [u8]) -> usize
    requires { RowFits word row.now «data».old }
    ensures value { result ≡ unmarked (bits_of (length row.now) word) }
    ensures data_after { «data».new ≡ sets «data».old 0 (taken (bits_of (length row.now) word) row.now) }
{
    let mut next = 0;
    for (c, symbol) in row.iter().enumerate() {
        if !words::is_marked(word, c) {
            data[next] = *symbol;
            next += 1;
        }
    }
    next
}

// Writes the symbols of a stripe's unmarked places to the data, row by row. The stripe stays as it is.
pub fn take(plan: usize, words: &[u64], stripe: &[u8], data: &mut [u8])
    requires { Fits (plan_of plan) words.now «data».old stripe.now }
    ensures { «data».new ≡ taken (marks_of (plan_of plan) words.now) stripe.now }
{
    let columns = tables::facts_of(plan).columns;
    let mut next = 0;
    for (r, word) in words.iter().enumerate() {
        let start = r * columns;
        next += take_row(*word, &stripe[start..start + columns], &mut data[next..]);
    }
}
