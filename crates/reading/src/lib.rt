// Stripe files: reading one.
#![tactic(auto)]

ghost use Rattle.std.specs.Prelude.{◌≡◌};
ghost use Rattle.fills.specs.Lists.{same};
ghost use Rattle.plans.specs.Answers.{refused_by};
ghost use Rattle.plans.specs.Plan.{plan_of, marks_of};
ghost use Rattle.plans.specs.Refusal.{unasked};
ghost use Rattle.files.specs.File.{blanked, plan_in, marks_in, symbols_in, file_refusal, read_refusal, read_stripe, read_marks};
ghost use Rattle.files.specs.Parts.{Symbols, Whole, Loading, content_refusal};

use files::HEADER;
use plans::{ROWS, Refusal, SYMBOLS};

// The plan number of a file; 0 where it is empty.
pub fn plan_in(file: &[u8]) -> usize
    ensures { result ≡ plan_in file.now }
{
    file.first().map_or(0, |plan| usize::from(*plan))
}

// ---- what is refused

// Whether every marked symbol is 0.
fn is_blank(plan: usize, symbols: &[u8], marks: &[u64]) -> bool
    requires { Symbols plan symbols.now marks.now }
    ensures { result ≡ same symbols.now (blanked (marks_of (plan_of plan) marks.now) symbols.now) }
{
    let mut blank = [0u8; SYMBOLS];
    files::put_symbols(plan, symbols, marks, &mut blank, 0);
    symbols[..] == blank[..symbols.len()]
}

// What of marks and symbols that were read is refused.
fn content_refusal(plan: usize, symbols: &[u8], marks: &[u64]) -> Result<(), Refusal>
    requires { Symbols plan symbols.now marks.now }
    ensures { refused_by result ≡ content_refusal (plan_of plan) marks.now symbols.now }
{
    if !refusals::marks_fit(plan, marks) {
        return Err(Refusal::MarkBeyondColumns);
    }
    if !refusals::symbols_fit(plan, marks, symbols) {
        return Err(Refusal::NoSymbol);
    }
    if !is_blank(plan, symbols, marks) {
        return Err(Refusal::SymbolUnderMark);
    }
    Ok(())
}

// What of a file is refused whose header and length are right, the lent buffers left out.
fn whole_refusal(plan: usize, file: &[u8]) -> Result<(), Refusal>
    requires { Whole plan file.now }
    ensures { refused_by result ≡ file_refusal file.now unasked }
{
    let facts = tables::facts_of(plan);
    let rows = facts.rows;
    let size = facts.word_bytes;
    let mut room = [0u64; ROWS];
    words::read_words(file, HEADER, size, &mut room[..rows]);
    let start = HEADER + size * rows;
    content_refusal(plan, &file[start..], &room[..rows])
}

// What of a file is refused, `lengths` saying whether the buffers lent to receive it fit.
pub fn file_refusal(file: &[u8], lengths: bool) -> Result<(), Refusal>
    ensures { refused_by result ≡ file_refusal file.now lengths }
{
    if file.len() < HEADER {
        return Err(Refusal::WrongFileLength);
    }
    let plan = plan_in(file);
    if !tables::is_known(plan) {
        return Err(Refusal::UnknownPlan); // whatever its header says
    }
    let header = files::header_of(plan);
    if file[..HEADER] != header[..] {
        return Err(Refusal::WrongHeader);
    }
    if file.len() != tables::facts_of(plan).file_length {
        return Err(Refusal::WrongFileLength); // longer or shorter than its plan's
    }
    if !lengths {
        return Err(Refusal::WrongLength);
    }
    whole_refusal(plan, file)
}

// ---- reading

// Reads a file that is not refused into a stripe and mark words as long as its plan's.
pub fn load(file: &[u8], stripe: &mut [u8], marks: &mut [u64])
    requires { Loading file.now stripe.old marks.old }
    ensures stripe_after { stripe.new ≡ symbols_in file.now }
    ensures marks_after { marks.new ≡ marks_in file.now }
{
    let size = tables::facts_of(plan_in(file)).word_bytes;
    words::read_words(file, HEADER, size, marks);
    let start = HEADER + size * marks.len();
    words::put(&file[start..], stripe, 0);
}

// Reads a file into a stripe and its marks. Where it is refused both are unchanged.
pub fn read_file(file: &[u8], stripe: &mut [u8], marks: &mut [u64]) -> Result<(), Refusal>
    ensures value { refused_by result ≡ read_refusal file.now stripe.old marks.old }
    ensures stripe_after { stripe.new ≡ read_stripe file.now stripe.old marks.old }
    ensures marks_after { marks.new ≡ read_marks file.now stripe.old marks.old }
{
    let plan = plan_in(file);
    let lengths = refusals::lengths_fit(plan, stripe, marks);
    file_refusal(file, lengths)?;
    load(file, stripe, marks);
    Ok(())
}
