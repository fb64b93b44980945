// Filling the marked places of a vector so that its sums are the target.
#![tactic(auto)]

ghost use Rattle.std.specs.Prelude.{◌≡◌, length};
ghost use Rattle.field.specs.Field.{gf2};
ghost use Rattle.field.specs.Ours.{field_of};
ghost use Rattle.fills.specs.Lists.{same};
ghost use Rattle.fills.specs.Fill.{sums_of};
ghost use Rattle.fills.specs.Marks.{rows_of};
ghost use Rattle.linear.specs.Answer.{Fillable, fill_of, answer_of, vector_of};
ghost use Rattle.linear.specs.Steps.{Comparable, Solvable, Settles};

use field::Gf;
use gathering::{CHECKS, COLUMNS};

// The room that the system takes.
const ROOM: usize = CHECKS * (COLUMNS + 1);

// Nothing fills; something does, and the marked columns are dependent; or the one vector that does is in place.
#[derive(Clone, Copy, PartialEq, Eq)]
pub enum FillAnswer {
    None,
    Tied,
    One,
}

// Whether v has the target sums.
fn has_sums(q: Gf, checks: &[u8], target: &[u8], v: &[u8]) -> bool
    requires { Comparable checks.now target.now v.now }
    ensures { result ≡ same
        (sums_of (field_of q) (rows_of (length target.now) (length v.now) checks.now) v.now)
        target.now }
{
    target
        .iter()
        .enumerate()
        .all(|(i, want)| gathering::row_sum(q, checks, i, v) == *want)
}

// Solves the system of the columns at `places`: what `fill` answers, and in `solution` the symbols there where it answers `One`.
fn solve_system(
    q: Gf,
    checks: &[u8],
    target: &[u8],
    shown: &[u8],
    places: &[u8],
    solution: &mut [u8; COLUMNS],
) -> FillAnswer
    requires { Solvable q checks.now target.now shown.now places.now }
    ensures { Settles q checks.now target.now shown.now places.now result solution.new }
{
    let k = places.len();
    let mut a = [0; ROOM];
    gathering::gather(q, checks, target, shown, places, &mut a);
    let mut pivots = [0; CHECKS];
    let mut dependency = [0; COLUMNS];
    let s = systems::solve(
        q,
        &mut a,
        target.len(),
        k,
        &mut pivots,
        solution,
        &mut dependency,
    );
    if !s.consistent {
        return FillAnswer::None;
    }
    if s.dependent {
        return FillAnswer::Tied;
    }
    FillAnswer::One
}

// The same over GF(2), with a column to a word.
fn solve_words(
    checks: &[u8],
    target: &[u8],
    shown: &[u8],
    places: &[u8],
    solution: &mut [u8; COLUMNS],
) -> FillAnswer
    requires { Solvable Gf.Two checks.now target.now shown.now places.now }
    ensures { Settles Gf.Two checks.now target.now shown.now places.now result solution.new }
{
    let need = gathering::gather_need(checks, target, shown);
    let answer = basis::span(checks, target.len(), shown.len(), places, need);
    let Some(word) = answer.solution else {
        return FillAnswer::None;
    };
    if answer.dependency.is_some() {
        return FillAnswer::Tied;
    }
    gathering::spread(word, &mut solution[..places.len()]);
    FillAnswer::One
}

// Solves the system of the columns at `places` as its field is best solved.
fn solve(
    q: Gf,
    checks: &[u8],
    target: &[u8],
    shown: &[u8],
    places: &[u8],
    solution: &mut [u8; COLUMNS],
) -> FillAnswer
    requires { Solvable q checks.now target.now shown.now places.now }
    ensures { Settles q checks.now target.now shown.now places.now result solution.new }
{
    match q {
        Gf::Two => solve_words(checks, target, shown, places, solution),
        _ => solve_system(q, checks, target, shown, places, solution),
    }
}

// Fills the marked places by the system of the marked columns. Apart from `fill`, whose stack need not be set to zeros where nothing is marked.
fn fill_marked(q: Gf, checks: &[u8], target: &[u8], v: &mut [u8], marks: u64) -> FillAnswer
    requires { Fillable q checks.now target.now v.old marks }
    ensures value { result ≡ answer_of (fill_of q checks.now target.now v.old marks) }
    ensures v_after { v.new ≡ vector_of (fill_of q checks.now target.now v.old marks) v.old }
{
    let mut places = [0; COLUMNS];
    let mut shown = [0; COLUMNS];
    let k = gathering::show(marks, v, &mut places, &mut shown);
    let places = &places[..k];
    let shown = &shown[..v.len()];
    let mut solution = [0; COLUMNS];
    let answer = solve(q, checks, target, shown, places, &mut solution);
    if answer == FillAnswer::One {
        gathering::scatter(v, places, &solution);
    }
    answer
}

// Fills the marked places of v, in field `q`, so that its sums are the target: for each sum `checks` has a row of coefficients, as
// many as v has symbols, and bit c of `marks` marks column c. v changes only where the answer is `One`, and no answer depends on
// what stands under a mark. Where nothing is marked the sums are compared; else the system of the marked columns is solved, over GF(2)
// with a column to a word.
pub fn fill(q: Gf, checks: &[u8], target: &[u8], v: &mut [u8], marks: u64) -> FillAnswer
    requires { Fillable q checks.now target.now v.old marks }
    ensures value { result ≡ answer_of (fill_of q checks.now target.now v.old marks) }
    ensures v_after { v.new ≡ vector_of (fill_of q checks.now target.now v.old marks) v.old }
{
    if marks != 0 {
        return fill_marked(q, checks, target, v, marks);
    }
    if has_sums(q, checks, target, v) {
        FillAnswer::One
    } else {
        FillAnswer::None
    }
}
