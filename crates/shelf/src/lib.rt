// The repair library on numbers and lent buffers, as scripts call it. Each function answers for every input by its answer's number.
#![tactic(auto)]

ghost use Rattle.std.specs.Prelude.{◌≡◌};
ghost use Rattle.plans.specs.Answers.{as_number, verdict_number};
ghost use Rattle.codewords.specs.Codeword.{tested};
ghost use Rattle.encoding.specs.Data.{encode_refusal, extract_refusal, extract_data};
ghost use Rattle.interleaved.specs.Interleaved.{interleaved};
ghost use Rattle.repair.specs.Encoding.{encode_stripe};
ghost use Rattle.files.specs.File.{read_refusal, read_stripe, read_marks, write_refusal, write_file};
ghost use Rattle.steps.specs.Steps.{row_step, level_step};
ghost use Rattle.shelf.specs.Calls.{start_number, start_buffer, step_answer, step_buffer};
ghost use Rattle.shelf.specs.Calls.{mend_number, mend_stripe_buffer, mend_marks_buffer, mend_report_buffer};
ghost use Rattle.shelf.specs.Calls.{text_number, text_buffer, text_size_buffer};

use numbers::Numbered;
use plans::{Bench, ROWS, Refusal};

// How many bytes tell the length of a text.
const SIZE: usize = 2;

// Starts a bench at level 1 with the stripe and the marks as lent; a refusal makes it a bench of zeros.
pub fn shelf_start(plan: usize, stripe: &[u8], marks: &[u64], bench: &mut [u8]) -> usize
    ensures value { result ≡ start_number plan stripe.now marks.now bench.old }
    ensures bench_after { bench.new ≡ start_buffer plan stripe.now marks.now bench.old }
{
    if bench.len() != layout::BENCH {
        return numbers::unfit(plan).number();
    }
    let mut started = Bench::EMPTY;
    let told = repair::start(plan, stripe, marks, &mut started);
    layout::put_bench(&started, bench);
    told.number()
}

// The row step: fills the row's marked symbols and clears its marks, or leaves the bench as it was. The symbols are filled in the buffer.
pub fn shelf_row_step(bench: &mut [u8], row: usize) -> usize
    ensures value { result ≡ step_answer (λ b. row_step b row) bench.old }
    ensures bench_after { bench.new ≡ step_buffer (λ b. row_step b row) bench.old }
{
    if bench.len() != layout::BENCH {
        return Refusal::WrongLength.number();
    }
    let plan = bench[0] as usize;
    let level = bench[1] as usize;
    let mut marks = layout::marks_in(bench);
    let sums = layout::sums_in(bench);
    let step = rows::step_row(
        plan,
        level,
        &mut bench[layout::AT_SYMBOLS..layout::AT_MARKS],
        &mut marks,
        &sums,
        row,
    );
    let number = step.number();
    if ROWS <= row {
        return number;
    }
    // of the mark words only the row's can have changed
    layout::put_mark(bench, row, marks[row]);
    number
}

// The level step: learns all rows' sums of the next level and raises the level by one, or leaves the bench as it was.
pub fn shelf_level_step(bench: &mut [u8]) -> usize
    ensures value { result ≡ step_answer level_step bench.old }
    ensures bench_after { bench.new ≡ step_buffer level_step bench.old }
{
    if bench.len() != layout::BENCH {
        return Refusal::WrongLength.number();
    }
    let mut stepped = layout::bench_in(bench);
    let step = repair::level_step(&mut stepped);
    layout::put_bench(&stepped, bench);
    step.number()
}

// Whether a stripe is a codeword.
pub fn shelf_is_codeword(plan: usize, stripe: &[u8]) -> usize
    ensures { result ≡ as_number verdict_number (tested plan stripe.now) }
{
    repair::is_codeword(plan, stripe).number()
}

// Whether a stripe is a codeword of plan 3, by its interleaved form.
pub fn shelf_is_interleaved(stripe: &[u8]) -> usize
    ensures { result ≡ as_number verdict_number (interleaved stripe.now) }
{
    repair::is_interleaved(stripe).number()
}

// Mends a stripe in one call and reports beside the answer. A Clash leaves stripe and marks as they were, a refusal the report too.
pub fn shelf_mend(plan: usize, stripe: &mut [u8], marks: &mut [u64], report: &mut [u8]) -> usize
    ensures value { result ≡ mend_number plan stripe.old marks.old report.old }
    ensures stripe_after { stripe.new ≡ mend_stripe_buffer plan stripe.old marks.old report.old }
    ensures marks_after { marks.new ≡ mend_marks_buffer plan stripe.old marks.old report.old }
    ensures report_after { report.new ≡ mend_report_buffer plan stripe.old marks.old report.old }
{
    if report.len() != layout::REPORT {
        return numbers::unfit(plan).number();
    }
    match repair::mend(plan, stripe, marks) {
        Ok(mended) => {
            report.copy_from_slice(&layout::report_bytes(plan, mended));
            mended.answer.number()
        }
        Err(refusal) => refusal.number(),
    }
}

// Encodes data to a stripe. A refusal leaves the stripe as it was.
pub fn shelf_encode(plan: usize, data: &[u8], stripe: &mut [u8]) -> usize
    ensures value { result ≡ encode_refusal plan «data».now stripe.old }
    ensures stripe_after { stripe.new ≡ encode_stripe plan «data».now stripe.old }
{
    repair::encode(plan, data, stripe).number()
}

// Takes the data out of a stripe. A refusal leaves the data buffer as it was.
pub fn shelf_extract(plan: usize, stripe: &[u8], data: &mut [u8]) -> usize
    ensures value { result ≡ extract_refusal plan stripe.now «data».old }
    ensures data_after { «data».new ≡ extract_data plan stripe.now «data».old }
{
    repair::extract(plan, stripe, data).number()
}

// Reads a stripe file's stripe and marks. A refusal leaves both buffers as they were.
pub fn shelf_read_file(file: &[u8], stripe: &mut [u8], marks: &mut [u64]) -> usize
    ensures value { result ≡ read_refusal file.now stripe.old marks.old }
    ensures stripe_after { stripe.new ≡ read_stripe file.now stripe.old marks.old }
    ensures marks_after { marks.new ≡ read_marks file.now stripe.old marks.old }
{
    reading::read_file(file, stripe, marks).number()
}

// Writes a stripe and its marks as a stripe file, 0 at each marked place. A refusal leaves the file buffer as it was.
pub fn shelf_write_file(plan: usize, stripe: &[u8], marks: &[u64], file: &mut [u8]) -> usize
    ensures value { result ≡ write_refusal plan stripe.now marks.now file.old }
    ensures file_after { file.new ≡ write_file plan stripe.now marks.now file.old }
{
    files::write_file(plan, stripe, marks, file).number()
}

// Writes what `mend` prints for a file into `text`, zeros behind it, and how many bytes it is into `size`.
pub fn shelf_text(file: &[u8], text: &mut [u8], size: &mut [u8]) -> usize
    ensures value { result ≡ text_number text.old size.old }
    ensures text_after { text.new ≡ text_buffer file.now text.old size.old }
    ensures size_after { size.new ≡ text_size_buffer file.now text.old size.old }
{
    if text.len() != texts::ROOM {
        return Refusal::WrongLength.number();
    }
    if size.len() != SIZE {
        return Refusal::WrongLength.number();
    }
    let mut room = [0u8; texts::ROOM];
    let length = printing::text(file, &mut room);
    text.copy_from_slice(&room);
    size.copy_from_slice(&words::size_bytes(length));
    0
}
