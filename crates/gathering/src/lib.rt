// The steps of `fill` around its solvers: listing the marked columns, gathering their system, and writing a solution to them.
#![tactic(auto)]

ghost use Rattle.std.specs.Prelude.{◌≡◌, ℕ, ◌+◌, ◌<◌, ◌≤◌, length, take};
ghost use Rattle.field.specs.Field.{Field, gf2, ◌⊕◌};
ghost use Rattle.field.specs.Ours.{field_of};
ghost use Rattle.equations.specs.System.{vec, ent, inner, Elements};
ghost use Rattle.equations.specs.Words.{bit_at};
ghost use Rattle.gathering.specs.Most.{most_columns};
ghost use Rattle.gathering.specs.Steps.{Listed, Copied, Gathered, scattered, Shown};
ghost use Rattle.gathering.specs.Steps.{Scatterable, Showable, Summable, RowGatherable, Gatherable, Needed};

use field::Gf;

// How many checks and columns `fill` takes at most.
pub const CHECKS: usize = 19;

pub const COLUMNS: usize = 64;

// Lists the marked columns, ascending, and gives how many there are.
fn list_places(marks: u64, places: &mut [u8; COLUMNS]) -> usize
    ensures { Listed marks result (vec places.new) }
{
    let k = marks.count_ones() as usize;
    let mut rest = marks;
    for place in &mut places[..k] {
        *place = rest.trailing_zeros() as u8;
        rest &= rest - 1;
    }
    k
}

// Writes symbol t of x to place t.
pub fn scatter(v: &mut [u8], places: &[u8], x: &[u8])
    requires { Scatterable places.now (length v.old) x.now }
    ensures { v.new ≡ scattered v.old (vec places.now) (vec x.now) (length places.now) }
{
    for (place, symbol) in places.iter().zip(x) {
        v[*place as usize] = *symbol;
    }
}

// Writes the bits of a word, the lowest first.
pub fn spread(word: u64, bits: &mut [u8])
    requires { length bits.old ≤ most_columns }
    ensures { (t : ℕ) → t < length bits.old → vec bits.new t ≡ bit_at word t }
{
    for (t, bit) in bits.iter_mut().enumerate() {
        *bit = ((word >> t) % 2) as u8;
    }
}

// Lists the marked columns and gives how many there are; copies v to the front of `shown`, with 0 under the marks.
pub fn show(marks: u64, v: &[u8], places: &mut [u8; COLUMNS], shown: &mut [u8]) -> usize
    requires { Showable marks v.now shown.old }
    ensures few { result ≤ length v.now }
    ensures shown { Shown marks v.now (take (length v.now) shown.new) (take result places.new) }
{
    let k = list_places(marks, places);
    shown[..v.len()].copy_from_slice(v);
    for place in &places[..k] {
        shown[*place as usize] = 0;
    }
    k
}

// The sum of check i over v: row i of the coefficients times v.
pub fn row_sum(q: Gf, checks: &[u8], i: usize, v: &[u8]) -> u8
    requires { Summable checks.now i v.now }
    ensures { result ≡ inner (field_of q) (ent checks.now (length v.now) i) (vec v.now) (length v.now) }
{
    let start = i * v.len();
    let end = start + v.len();
    q.dot(&checks[start..end], v)
}

// Copies the coefficients of check i at the places to row i of the system, and leaves the rest as it is.
fn gather_row(checks: &[u8], n: usize, i: usize, places: &[u8], a: &mut [u8])
    requires { RowGatherable checks.now n i places.now a.old }
    ensures copied { let k = length places.now in
        Copied checks.now n i (vec places.now) a.old a.new k k }
    ensures elements { (F : Field) → Elements F (vec checks.now) → Elements F (vec a.old) → Elements F (vec a.new) }
{
    let row = i * (places.len() + 1);
    for (t, place) in places.iter().enumerate() {
        a[row + t] = checks[i * n + *place as usize];
    }
}

// Gathers the system of the places: for each check its coefficients there, and what the symbols of `shown` leave of its target.
pub fn gather(q: Gf, checks: &[u8], target: &[u8], shown: &[u8], places: &[u8], a: &mut [u8])
    requires { Gatherable q checks.now target.now shown.now places.now a.old }
    ensures gathered { let k = length places.now in
        Gathered (field_of q) checks.now target.now (vec shown.now) (length shown.now) k (vec places.now)
        (ent a.new (k + 1)) (length target.now) }
    ensures elements { Elements (field_of q) (vec a.new) }
{
    let k = places.len();
    for (i, want) in target.iter().enumerate() {
        gather_row(checks, shown.len(), i, places, a);
        let sum = row_sum(q, checks, i, shown);
        a[i * (k + 1) + k] = *want ^ sum;
    }
}

// What the symbols of `shown` leave of the target, as a word: bit i is that of check i.
pub fn gather_need(checks: &[u8], target: &[u8], shown: &[u8]) -> u32
    requires { Needed checks.now target.now shown.now }
    ensures { (i : ℕ) → i < length target.now → bit_at result i
        ≡ vec target.now i ⊕ inner gf2 (ent checks.now (length shown.now) i) (vec shown.now) (length shown.now) }
{
    equations::word_of(target.len(), |i| {
        target[i] != row_sum(Gf::Two, checks, i, shown)
    }) as u32
}
