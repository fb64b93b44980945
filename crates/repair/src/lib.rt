// The repair library: every call that it offers, and what each answers. Mending in one call and encoding stand here.
#![tactic(auto)]

ghost use Rattle.std.specs.Prelude.{◌≡◌};
ghost use Rattle.encoding.specs.Data.{encode_refusal};
ghost use Rattle.plans.specs.Answers.{numbered, refused_by};
ghost use Rattle.repair.specs.Mending.{mend_report, mend_stripe, mend_marks};
ghost use Rattle.repair.specs.Encoding.{encode_stripe};

pub use codewords::is_codeword;
pub use encoding::extract;
pub use interleaved::is_interleaved;
pub use levels::level_step;
use plans::{ROWS, SYMBOLS};
pub use plans::{Answer, Bench, Place, Refusal, Report, Step};
pub use rows::row_step;
pub use steps::start;
pub use tables::{Facts, facts_of};

// Mends a stripe in one call, by rounds of row steps and level steps on a bench of its own. Restored and Stuck leave the restored
// rows in the stripe and their marks clear; a Clash and a refusal leave both as they were.
pub fn mend(plan: usize, stripe: &mut [u8], marks: &mut [u64]) -> Result<Report, Refusal>
    ensures value { numbered result ≡ mend_report plan stripe.old marks.old }
    ensures stripe_after { stripe.new ≡ mend_stripe plan stripe.old marks.old }
    ensures marks_after { marks.new ≡ mend_marks plan stripe.old marks.old }
{
    refusals::lent_refusal(plan, stripe, marks)?;
    if walks::over_marked(plan, marks) {
        return Ok(rounds::end_report(plan, 1, [0; 3], marks));
    }
    let mut symbols = [0u8; SYMBOLS];
    let mut words = [0u64; ROWS];
    symbols[..stripe.len()].copy_from_slice(stripe);
    words[..marks.len()].copy_from_slice(marks);
    let report = rounds::rounds(plan, &mut symbols, &mut words);
    if let Answer::Clash(_) = report.answer {
        return Ok(report);
    }
    stripe.copy_from_slice(&symbols[..stripe.len()]);
    marks.copy_from_slice(&words[..marks.len()]);
    Ok(report)
}

// Encoding: the data at the places that are not check places, row by row, and the check places such that the stripe is a codeword.
// What stood in the stripe is not read; refused, it stays as it is.
pub fn encode(plan: usize, data: &[u8], stripe: &mut [u8]) -> Result<(), Refusal>
    ensures value { refused_by result ≡ encode_refusal plan «data».now stripe.old }
    ensures stripe_after { stripe.new ≡ encode_stripe plan «data».now stripe.old }
{
    encoding::encode_refusal(plan, data, stripe)?;
    let places = tables::check_places(plan);
    let mut words = [0u64; ROWS];
    let marks = &mut words[..places.len()];
    marks.copy_from_slice(places);
    encoding::place(plan, places, data, stripe);
    let _ = mend(plan, stripe, marks);
    Ok(())
}
