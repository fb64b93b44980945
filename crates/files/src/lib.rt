// Stripe files: what one is, and writing one.
#![tactic(auto)]

ghost use Rattle.std.specs.Prelude.{◌≡◌, ◌/◌, ◌%◌, ◌^◌, ◌<◌, T, eqb, length};
ghost use Rattle.field.specs.Lists.{when◌then◌else◌};
ghost use Rattle.fills.specs.Marks.{bits_of};
ghost use Rattle.plans.specs.Answers.{refused_by};
ghost use Rattle.plans.specs.Plan.{plan_of, known, marks_of};
ghost use Rattle.words.specs.Words.{word_bits};
ghost use Rattle.words.specs.Written.{Put};
ghost use Rattle.files.specs.File.{header_of, blanked, file_of, write_refusal, write_file};
ghost use Rattle.files.specs.Parts.{RowPut, SymbolsPut};

use plans::Refusal;

// How many bytes a header has: the mark words begin behind it.
pub const HEADER: usize = 8;

// How many bytes a wide mark word has.
const WIDE: usize = 8;

// The header of a plan's file: offsets low byte first.
pub fn header_of(plan: usize) -> [u8; HEADER]
    requires { T (known plan) }
    ensures { result ≡ header_of plan }
{
    let facts = tables::facts_of(plan);
    let symbols = words::size_bytes(HEADER + facts.word_bytes * facts.rows);
    [
        plan as u8,
        facts.rows as u8,
        facts.columns as u8,
        (facts.word_bytes / WIDE) as u8, // 1 where mark words are wide
        HEADER as u8,
        0,
        symbols[0],
        symbols[1],
    ]
}

// ---- symbols

// A symbol as a file holds it: 0 where its column is marked.
fn kept(word: u64, column: usize, symbol: u8) -> u8
    requires { column < word_bits }
    ensures { result ≡ (when eqb (word / 2 ^ column % 2) 1 then 0 else symbol) }
{
    if words::is_marked(word, column) {
        return 0;
    }
    symbol
}

// Writes a row from `at` on, 0 under its marks, and gives the place behind it. The rest of the file is unchanged.
fn put_row(word: u64, row: &[u8], file: &mut [u8], at: usize) -> usize
    requires { RowPut row.now file.old at }
    ensures { Put file.old at (blanked (bits_of (length row.now) word) row.now) result file.new }
{
    // by place: of what an adapter of `iter_mut` writes a proof learns nothing
    for (c, symbol) in row.iter().enumerate() {
        file[at + c] = kept(word, c, *symbol);
    }
    at + row.len()
}

// Writes the symbols from `at` on, 0 under marks, and gives the place behind them. The rest of the file is unchanged.
pub fn put_symbols(plan: usize, stripe: &[u8], marks: &[u64], file: &mut [u8], at: usize) -> usize
    requires { SymbolsPut plan stripe.now marks.now file.old at }
    ensures { Put file.old at (blanked (marks_of (plan_of plan) marks.now) stripe.now) result file.new }
{
    let columns = tables::facts_of(plan).columns;
    let mut next = at;
    for (word, row) in marks.iter().zip(stripe.chunks(columns)) {
        next = put_row(*word, row, file, next);
    }
    next
}

// ---- the file

// What writing refuses.
fn write_refusal(plan: usize, stripe: &[u8], marks: &[u64], file: &[u8]) -> Result<(), Refusal>
    ensures { refused_by result ≡ write_refusal plan stripe.now marks.now file.now }
{
    if !tables::is_known(plan) {
        return Err(Refusal::UnknownPlan);
    }
    if file.len() != tables::facts_of(plan).file_length {
        return Err(Refusal::WrongLength); // the buffer for the file
    }
    refusals::lent_refusal(plan, stripe, marks)
}

// Writes the whole file of a stripe and its marks that are not refused.
fn put_file(plan: usize, stripe: &[u8], marks: &[u64], file: &mut [u8])
    requires { write_refusal plan stripe.now marks.now file.old ≡ 0 }
    ensures { file.new ≡ file_of plan stripe.now marks.now }
{
    let header = header_of(plan);
    let size = tables::facts_of(plan).word_bytes;
    let at_marks = words::put(&header, file, 0);
    let at_symbols = words::put_words(marks, size, file, at_marks);
    put_symbols(plan, stripe, marks, file, at_symbols);
}

// Writes a stripe and its marks as a file, 0 under marks. Where it is refused the file is unchanged.
pub fn write_file(plan: usize, stripe: &[u8], marks: &[u64], file: &mut [u8]) -> Result<(), Refusal>
    ensures value { refused_by result ≡ write_refusal plan stripe.now marks.now file.old }
    ensures file_after { file.new ≡ write_file plan stripe.now marks.now file.old }
{
    write_refusal(plan, stripe, marks, file)?;
    put_file(plan, stripe, marks, file);
    Ok(())
}
