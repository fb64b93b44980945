// Systems and vectors with known answers, over GF(2) and GF(16). What the compiled code answers is held to the file `stdout`.
#![tactic(auto)]

ghost use Rattle.std.specs.Prelude.{◌≤◌, length};
ghost use Rattle.linear_cases.specs.Symbols.{Answerable, Marked, Uniform};

use field::Gf::{self, Sixteen, Two};
use gathering::COLUMNS;
use linear::FillAnswer;
use std::io::Write;

// Writes a line, or a part of one. What cannot be written is left out: the output then differs from the file `stdout`.
fn put(out: &mut impl Write, line: &[u8]) {
    let _ = out.write_all(line);
}

// 0 to 9, then a to f. No format prints `?` for what is no symbol.
fn digit(x: u8) -> u8 {
    match x {
        0..=9 => b'0' + x,
        10..=15 => b'a' + (x - 10),
        _ => b'?',
    }
}

fn flag(b: bool) -> u8 {
    if b { b'1' } else { b'0' }
}

fn outcome(answer: FillAnswer) -> u8 {
    match answer {
        FillAnswer::None => b'n',
        FillAnswer::Tied => b't',
        FillAnswer::One => b'1',
    }
}

// Writes symbols, and a byte behind them.
fn write_symbols(out: &mut impl Write, symbols: &[u8], end: u8) {
    for x in symbols {
        put(out, &[digit(*x)]);
    }
    put(out, &[end]);
}

// Answers a system of m equations in k unknowns, and writes a line: whether its columns are dependent, whether it has a solution,
// a solution, a dependency. The last two are 0 where there is none.
fn answer(out: &mut impl Write, q: Gf, system: [u8; 12], m: usize, k: usize)
    requires { Answerable q system m k }
{
    let mut a = system;
    let mut pivots = [0; 5];
    let mut x = [0; 5];
    let mut z = [0; 5];
    let s = systems::solve(q, &mut a, m, k, &mut pivots, &mut x, &mut z);
    put(out, &[flag(s.dependent), flag(s.consistent), b' ']);
    write_symbols(out, &x, b' ');
    write_symbols(out, &z, b'\n');
}

// Fills v, and writes a line: the outcome, and the symbols of v after it, but for the first `skipped`.
fn write_filling(
    out: &mut impl Write,
    q: Gf,
    checks: &[u8],
    target: &[u8],
    v: &mut [u8],
    marks: u64,
    skipped: usize,
)
    requires marked { Marked q checks.now target.now v.old marks }
    requires some { skipped ≤ length v.old }
{
    let answer = linear::fill(q, checks, target, v, marks);
    put(out, &[outcome(answer), b' ']);
    write_symbols(out, &v[skipped..], b'\n');
}

// Fills five symbols by three checks, and writes all of them.
fn filling(out: &mut impl Write, q: Gf, checks: &[u8; 15], target: [u8; 3], v: [u8; 5], marks: u64)
    requires { Marked q checks.now target v marks }
{
    let mut filled = v;
    write_filling(out, q, checks, &target, &mut filled, marks, 0);
}

// Fills as many symbols as `fill` takes by one check, with one coefficient for all, and writes the last two.
fn wide_filling(out: &mut impl Write, q: Gf, coefficient: u8, target: u8, symbol: u8, marks: u64)
    requires { Uniform q coefficient target }
{
    let checks = [coefficient; COLUMNS];
    let mut v = [symbol; COLUMNS];
    write_filling(out, q, &checks, &[target], &mut v, marks, COLUMNS - 2);
}

fn answers(out: &mut impl Write) {
    // no columns: consistent, and not
    answer(out, Two, [0; 12], 3, 0);
    answer(out, Sixteen, [0, 5, 0, 0, 0, 0, 0, 0, 0, 0, 0, 0], 2, 0);
    // no equations in two unknowns: dependent and consistent
    answer(out, Sixteen, [0; 12], 0, 2);
    // one solution: x + y = 1, y = 1; 2 x + 3 y = 8, x + y = 7
    answer(out, Two, [1, 1, 1, 0, 1, 1, 0, 0, 0, 0, 0, 0], 2, 2);
    answer(out, Sixteen, [2, 3, 8, 1, 1, 7, 0, 0, 0, 0, 0, 0], 2, 2);
    // a pivot below the first row, and one that is not 1
    answer(out, Sixteen, [0, 4, 8, 3, 0, 5, 3, 4, 13, 0, 0, 0], 3, 2);
    // more columns than rows
    answer(out, Two, [1, 1, 0, 1, 1, 0, 1, 1, 0, 1, 0, 0], 2, 4);
    answer(out, Sixteen, [7, 1, 9, 2, 4, 0, 3, 3, 5, 8, 1, 15], 2, 5);
    // a zero column
    answer(out, Sixteen, [1, 0, 0, 6, 0, 0, 2, 4, 0, 0, 0, 0], 2, 3);
    answer(out, Two, [0, 1, 0, 0, 0, 0, 0, 0, 0, 0, 0, 0], 2, 1);
    // inconsistent, with dependent columns
    answer(out, Sixteen, [1, 2, 3, 2, 4, 7, 0, 0, 0, 0, 0, 0], 2, 2);
    answer(out, Two, [1, 1, 0, 1, 1, 1, 0, 0, 0, 0, 0, 0], 2, 2);
    // inconsistent, with independent columns: more equations than unknowns
    answer(out, Sixteen, [1, 5, 2, 10, 1, 6, 0, 0, 0, 0, 0, 0], 3, 1);
}

// Three checks of five symbols each: over GF(2), where the third is the sum of the others; over GF(16); and over GF(16), where the
// third is the second and twice the first, and the last column is three times another.
const BITS: [u8; 15] = [1, 1, 1, 1, 1, 0, 1, 0, 1, 0, 1, 0, 1, 0, 1];

const APART: [u8; 15] = [1, 1, 1, 1, 1, 0, 1, 2, 3, 4, 0, 1, 4, 5, 3];

const TIED: [u8; 15] = [1, 1, 1, 1, 3, 0, 1, 2, 3, 3, 2, 3, 0, 1, 5];

fn fillings(out: &mut impl Write) {
    // nothing marked: the sums are the target, and are not
    filling(out, Two, &BITS, [0, 1, 1], [1, 0, 1, 1, 1], 0);
    filling(out, Sixteen, &APART, [0, 0, 1], [0, 0, 0, 0, 0], 0);
    // marked: what stands under a mark does not count
    filling(out, Sixteen, &APART, [0, 0, 0], [1, 99, 3, 255, 5], 10);
    filling(out, Sixteen, &APART, [0, 0, 0], [1, 7, 7, 7, 5], 14);
    filling(out, Two, &BITS, [0, 1, 1], [1, 9, 1, 9, 1], 10);
    // more marks than checks, which are independent
    filling(out, Sixteen, &APART, [0, 0, 0], [1, 2, 3, 4, 5], 31);
    // tied rows that nothing fills: the marks stand in equal columns. No vector has the sums; some have, but none with these symbols
    // where unmarked
    filling(out, Two, &BITS, [0, 1, 0], [1, 9, 1, 9, 1], 10);
    filling(out, Two, &BITS, [1, 1, 0], [1, 9, 1, 9, 1], 10);
    // four marks, over the same checks: something fills; nothing does
    filling(out, Two, &BITS, [0, 1, 1], [9, 9, 9, 9, 1], 15);
    filling(out, Two, &BITS, [0, 1, 0], [9, 9, 9, 9, 1], 15);
    // tied rows and columns: something fills; nothing does
    filling(out, Sixteen, &TIED, [5, 9, 3], [5, 99, 7, 0, 99], 18);
    filling(out, Sixteen, &TIED, [5, 8, 2], [5, 99, 7, 0, 99], 18);
    // five marks, over the same checks: something fills; nothing does
    filling(out, Sixteen, &TIED, [5, 9, 3], [1, 2, 3, 4, 5], 31);
    filling(out, Sixteen, &TIED, [5, 9, 2], [1, 2, 3, 4, 5], 31);
}

// The mark of the last column.
const LAST: u64 = 1 << 63;

fn wide_fillings(out: &mut impl Write) {
    // the last of 64 columns marked
    wide_filling(out, Two, 1, 1, 1, LAST);
    wide_filling(out, Sixteen, 1, 9, 3, LAST);
    // all 64 marked: something fills; nothing does
    wide_filling(out, Two, 1, 1, 1, u64::MAX);
    wide_filling(out, Sixteen, 1, 9, 3, u64::MAX);
    wide_filling(out, Two, 0, 1, 1, u64::MAX);
    wide_filling(out, Sixteen, 0, 9, 3, u64::MAX);
}

fn main(rt: HostRuntime) {
    let mut out = rt.stdout();
    answers(&mut out);
    fillings(&mut out);
    wide_fillings(&mut out);
}
