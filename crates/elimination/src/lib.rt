// Matrices over our fields, reduced in place.
//
// A matrix stands in a buffer that is lent beside its shape, row after row: a `&mut` within would have each method promise the shape
// again. There is one row operation; rows are neither swapped nor scaled.
#![tactic(auto)]

ghost use Rattle.std.specs.Prelude.{◌≡◌};
ghost use Rattle.field.specs.Field.{◌⊕◌, mul, inverse};
ghost use Rattle.field.specs.Ours.{field_of};
ghost use Rattle.equations.specs.System.{vec, ent, Elements};
ghost use Rattle.elimination.specs.Steps.{Found, Added, Cleared, Pivoted, Reduction};
ghost use Rattle.elimination.specs.Steps.{Findable, Addable, Clearable, Pivotable, Reducible};

use field::Gf;

// The field that a matrix is over, how many rows it has, and how many symbols a row has.
#[derive(Clone, Copy)]
pub struct Shape {
    pub field: Gf,
    pub rows: usize,
    pub width: usize,
}

// How many columns have a pivot, and a column that has none where there is one.
#[derive(Clone, Copy)]
pub struct Reduced {
    pub rank: usize,
    pub free: Option<usize>,
}

// What to add a row with entry y times to one with entry x, to make that entry 1.
fn factor(q: Gf, x: u8, y: u8) -> u8
    ensures { result ≡ mul (field_of q) (x ⊕ 1) (inverse (field_of q) y) }
{
    if x == 1 {
        return 0;
    }
    q.product(x ^ 1, q.inverse(y))
}

impl Shape {
    // Adds f times row p to row i, from column c on: before it row p is 0. i may be p.
    fn add_row(self, a: &mut [u8], i: usize, p: usize, c: usize, f: u8)
        requires { Addable self a.old i p c }
        ensures added { Added (field_of self.field) (ent a.old self.width) (ent a.new self.width) self.width i p f }
        ensures elements { Elements (field_of self.field) (vec a.new) }
    {
        if f == 0 {
            return;
        }
        let to = i * self.width;
        let from = p * self.width;
        // by number: both rows lie in one buffer, and may be the same
        for j in c..self.width {
            a[to + j] ^= self.field.product(f, a[from + j]);
        }
    }

    // The first row from r on whose entry in column c is not 0.
    pub fn find_row(self, a: &[u8], r: usize, c: usize) -> Option<usize>
        requires { Findable self a.now r c }
        ensures { Found (ent a.now self.width) self.rows r c result }
    {
        (r..self.rows).find(|i| a[*i * self.width + c] != 0)
    }

    // Clears column c but for row p, whose entry there is 1 once `pivot` has made it so: adds to each other row its entry in column c
    // times row p.
    fn clear_column(self, a: &mut [u8], p: usize, c: usize)
        requires { Clearable self a.old p c }
        ensures cleared { Cleared (field_of self.field) (ent a.old self.width) (ent a.new self.width) self.rows self.width p c }
        ensures elements { Elements (field_of self.field) (vec a.new) }
    {
        // by number: row p, of the same buffer, is read at each turn
        for i in 0..self.rows {
            if i != p {
                let f = a[i * self.width + c];
                self.add_row(a, i, p, c, f);
            }
        }
    }

    // Makes column c the unit vector of row r, by row i, whose entry there is not 0. i is r or a row below it; the rows from r on
    // are 0 before column c.
    fn pivot(self, a: &mut [u8], r: usize, c: usize, i: usize)
        requires { Pivotable self a.old r c i }
        ensures pivoted { Pivoted (field_of self.field) (ent a.old self.width) (ent a.new self.width) self.rows self.width r c }
        ensures elements { Elements (field_of self.field) (vec a.new) }
    {
        let x = a[r * self.width + c];
        let y = a[i * self.width + c];
        let f = factor(self.field, x, y);
        self.add_row(a, r, i, c, f);
        self.clear_column(a, r, c);
    }

    // Makes unit vectors of the first k columns, as far as they are independent. pivots[t] becomes the column whose 1 is in row t.
    pub fn reduce(self, a: &mut [u8], k: usize, pivots: &mut [usize]) -> Reduced
        requires { Reducible self a.old k pivots.old }
        ensures { Reduction self a.old a.new pivots.new k result.rank result.free }
    {
        let mut rank = 0;
        let mut free = None;
        for c in 0..k {
            match self.find_row(a, rank, c) {
                Some(i) => {
                    self.pivot(a, rank, c, i);
                    pivots[rank] = c;
                    rank += 1;
                }
                None => free = Some(c),
            }
        }
        Reduced { rank, free }
    }
}
