// Systems of equations over GF(2) with a column to a word: which words the columns give together, by an echelon of words.
#![tactic(auto)]

ghost use Rattle.std.specs.Prelude.{◌≡◌, ◌≢◌, length, None};
ghost use Rattle.equations.specs.System.{vec};
ghost use Rattle.equations.specs.Words.{column_of};
ghost use Rattle.basis.specs.Span.{Spannable, Spans};
ghost use Rattle.basis.specs.Steps.{Column, Reducible, Reduced, Keepable, kept, Concluded};

// How many bits a column's word has, and how many columns a mask names.
const BITS: usize = 32;

const COLUMNS: usize = 64;

// Every bit of a word, and of a mask.
const WORD: u32 = 4294967295;

const MASK: u64 = 18446744073709551615;

// The coefficients of the m checks in column p as a word: bit i is that of check i.
fn gather_column(checks: &[u8], m: usize, n: usize, p: usize) -> u32
    requires { Column checks.now m n p }
    ensures { result ≡ column_of checks.now m n p }
{
    equations::word_of(m, |i| checks[i * n + p] == 1) as u32
}

// A word, or what is left of one, and the mask that goes with it.
#[derive(Clone, Copy)]
struct Rest {
    word: u32,
    mask: u64,
}

// Words in echelon form. Each stands at its pivot, its lowest bit; its mask names the columns that give it. `order` has the pivots in the
// order of their making, `count` of them.
#[derive(Drop)]
struct Echelon {
    words: [u32; BITS],
    masks: [u64; BITS],
    order: [u8; COLUMNS],
    count: usize,
}

impl Echelon {
    // Makes a word 0 at the pivots, in the order of their making: adds to it each word whose pivot it has, and that word's mask to
    // its mask.
    fn reduce(&self, word: u32, mask: u64) -> Rest
        requires { Reducible self.now }
        ensures { Reduced self.now word mask result }
    {
        let mut left = word;
        let mut made = mask;
        for pivot in &self.order[..self.count] {
            let p = *pivot as usize;
            let taken = (left >> p) % 2;
            // masks in place of products or branches: each turn waits for the one before
            left ^= self.words[p] & taken * WORD;
            made ^= self.masks[p] & taken as u64 * MASK;
        }
        Rest {
            word: left,
            mask: made,
        }
    }

    // Keeps what is left of a word at its lowest bit.
    fn keep(&mut self, rest: Rest)
        requires { Keepable self.old rest }
        ensures { self.new ≡ kept self.old rest }
    {
        let p = rest.word.trailing_zeros() as usize;
        self.words[p] = rest.word;
        self.masks[p] = rest.mask;
        self.order[self.count] = p as u8;
        self.count += 1;
    }

    // Whether the columns give a word, by which columns, and the dependency that was found.
    fn conclude(&self, wanted: u32, dependency: Option<u64>) -> Answer
        requires { Reducible self.now }
        ensures { Concluded self.now wanted dependency result.solution result.dependency }
    {
        let end = self.reduce(wanted, 0);
        Answer {
            solution: (end.word == 0).then_some(end.mask),
            dependency,
        }
    }
}

// Columns that give what is needed, and columns that give 0, in each the bits that are set; None where there are no such columns.
#[derive(Clone, Copy)]
pub struct Answer {
    pub solution: Option<u64>,
    pub dependency: Option<u64>,
}

// Answers for the columns of m checks at `places`, each a word of m bits, which of them give the m low bits of `need`, and which,
// at least one, give 0. Both hold of dependent and of independent columns.
pub fn span(checks: &[u8], m: usize, n: usize, places: &[u8], need: u32) -> Answer
    requires { Spannable checks.now m n places.now }
    ensures { Spans (λ t. column_of checks.now m n (vec places.now t)) (length places.now) m need
        result.solution result.dependency }
{
    let wanted = need & ((1u64 << m) - 1) as u32;
    let mut echelon = Echelon {
        words: [0; BITS],
        masks: [0; BITS],
        order: [0; COLUMNS],
        count: 0,
    };
    let mut dependency = None;
    for (t, p) in places.iter().enumerate() {
        let column = gather_column(checks, m, n, *p as usize);
        let rest = echelon.reduce(column, 1u64 << t);
        if rest.word != 0 {
            echelon.keep(rest);
        } else {
            dependency = Some(rest.mask);
            // where need is met already, further columns change nothing
            let end = echelon.conclude(wanted, dependency);
            if end.solution.is_some() {
                return end;
            }
        }
    }
    echelon.conclude(wanted, dependency)
}
