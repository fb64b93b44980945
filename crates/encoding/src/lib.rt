// Extraction; what encoding refuses, and how it places the data.
#![tactic(auto)]

mod encoding;

ghost use Rattle.std.specs.Prelude.{◌≡◌};
ghost use Rattle.plans.specs.Answers.{refused_by};
ghost use Rattle.encoding.specs.Data.{extract_refusal, extract_data};

pub use crate::encoding::{encode_refusal, place};
use plans::Refusal;

// Extraction: the data of a codeword, from the places that are not check places. Refused, the room for the data stays as it is.
pub fn extract(plan: usize, stripe: &[u8], data: &mut [u8]) -> Result<(), Refusal>
    ensures value { refused_by result ≡ extract_refusal plan stripe.now «data».old }
    ensures data_after { «data».new ≡ extract_data plan stripe.now «data».old }
{
    encoding::extract_refusal(plan, stripe, data)?;
    encoding::take(plan, tables::check_places(plan), stripe, data);
    Ok(())
}
