// A script's report and bench as bytes. For our own crates, not for scripts.
#![tactic(auto)]

ghost use Rattle.std.specs.Prelude.{◌≡◌, ◌++◌, ◌+◌, ◌*◌, T, length, replicate};
ghost use Rattle.std.proofs.lemmas.List.Edits.{sets};
ghost use Rattle.plans.specs.Plan.{plan_of};
ghost use Rattle.plans.specs.Answers.{place_values, end_values, report_values};
ghost use Rattle.plans.specs.Refusal.{all_below};
ghost use Rattle.plans.specs.Tables.{padded};
ghost use Rattle.layout.specs.Layout.{report_size, place_bytes, report_bytes};
ghost use Rattle.layout.specs.Layout.{mark_size, marks_from, bench_size, bench_bytes, bench_in};
ghost use Rattle.layout.specs.Parts.{Small, BenchPut, MarkPut};
ghost use Rattle.words.specs.Words.{byte_range, bytes_of};

use plans::{Answer, Bench, LEARNED, Place, ROWS, Report, SYMBOLS};

// How many bytes a report has.
pub const REPORT: usize = 8;

// How many bytes a bench has, where its symbols, its mark words and its sums begin, and how many bytes each mark word has.
pub const BENCH: usize = AT_SUMS + LEARNED;

pub const AT_SYMBOLS: usize = 2;

pub const AT_MARKS: usize = AT_SYMBOLS + SYMBOLS;

const AT_SUMS: usize = AT_MARKS + MARK * ROWS;

const MARK: usize = 8;

// ---- a report

// The values of Restored and of Stuck, zeros behind them.
fn end_bytes(plan: usize, report: Report) -> [u8; REPORT]
    requires { T (all_below byte_range (end_values (plan_of plan) report)) }
    ensures { result ≡ padded report_size (end_values (plan_of plan) report) }
{
    let rows = report.rows;
    let values = [report.level, report.left, rows[0], rows[1], rows[2]];
    let size = tables::facts_of(plan).levels + 2;
    let mut bytes = [0u8; REPORT];
    for (k, value) in values[..size].iter().enumerate() {
        bytes[k] = *value as u8;
    }
    bytes
}

// A Clash's place, behind zeros.
fn clash_bytes(place: Place) -> [u8; REPORT]
    requires { T (all_below byte_range (place_values place)) }
    ensures { result ≡ replicate 5 0 ++ place_bytes place (place_values place) }
{
    match place {
        Place::Row { row, level } => [0, 0, 0, 0, 0, 1, row as u8, level as u8],
        Place::Across { level } => [0, 0, 0, 0, 0, 2, 0, level as u8],
    }
}

// A report's bytes.
pub fn report_bytes(plan: usize, report: Report) -> [u8; REPORT]
    requires { T (all_below byte_range (report_values (plan_of plan) report)) }
    ensures { result ≡ report_bytes (plan_of plan) report }
{
    match report.answer {
        Answer::Restored | Answer::Stuck => end_bytes(plan, report),
        Answer::Clash(place) => clash_bytes(place),
    }
}

// ---- a bench

// The three take a slice and ask its length, since that is how a script lends a bench.

// The mark words of the bench that these bytes are.
pub fn marks_in(bytes: &[u8]) -> [u64; ROWS]
    requires { length bytes.now ≡ bench_size }
    ensures { result ≡ (bench_in bytes.now).marks }
{
    let mut marks = [0u64; ROWS];
    words::read_words(bytes, AT_MARKS, MARK, &mut marks);
    marks
}

// Its learned sums.
pub fn sums_in(bytes: &[u8]) -> [u8; LEARNED]
    requires { length bytes.now ≡ bench_size }
    ensures { result ≡ (bench_in bytes.now).sums }
{
    let mut sums = [0u8; LEARNED];
    words::put(&bytes[AT_SUMS..BENCH], &mut sums, 0);
    sums
}

// The whole bench.
pub fn bench_in(bytes: &[u8]) -> Bench
    requires { length bytes.now ≡ bench_size }
    ensures value { result ≡ bench_in bytes.now }
    ensures small { Small result }
{
    let mut symbols = [0u8; SYMBOLS];
    words::put(&bytes[AT_SYMBOLS..AT_MARKS], &mut symbols, 0);
    Bench {
        plan: bytes[0] as usize,
        level: bytes[1] as usize,
        symbols: symbols,
        marks: marks_in(bytes),
        sums: sums_in(bytes),
    }
}

// Writes the mark word of row `row` into a bench's bytes. The others are unchanged.
pub fn put_mark(bench: &mut [u8], row: usize, word: u64)
    requires { MarkPut bench.old row }
    ensures { bench.new ≡ sets bench.old (marks_from + mark_size * row) (bytes_of mark_size word) }
{
    words::put_words(&[word], MARK, bench, AT_MARKS + MARK * row);
}

// Writes a bench's bytes over the whole of `out`.
pub fn put_bench(bench: &Bench, out: &mut [u8])
    requires { BenchPut bench.now out.old }
    ensures { out.new ≡ bench_bytes bench.now }
{
    let head = [bench.plan as u8, bench.level as u8];
    let at_symbols = words::put(&head, out, 0);
    let at_marks = words::put(&bench.symbols, out, at_symbols);
    let at_sums = words::put_words(&bench.marks, MARK, out, at_marks);
    words::put(&bench.sums, out, at_sums);
}
