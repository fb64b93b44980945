// Systems of equations over our fields, answered by elimination in place.
//
// A system is a flat buffer of m rows of k + 1 symbols: the coefficients of k unknowns, then the right-hand side.
#![tactic(auto)]

ghost use Rattle.std.specs.Prelude.{◌≡◌, ◌+◌, length};
ghost use Rattle.field.specs.Ours.{field_of};
ghost use Rattle.equations.specs.System.{vec, ent, Consistency, Dependence, Solved};
ghost use Rattle.systems.specs.Solve.{Solvable};
ghost use Rattle.elimination.specs.Steps.{Free, ReadOff};
ghost use Rattle.systems.specs.Steps.{Readable};

use elimination::Shape;
use field::Gf;

// Writes column u to z, each row's entry at the row's pivot column, and 0 elsewhere.
fn read_off(shape: Shape, a: &[u8], pivots: &[usize], k: usize, u: usize, z: &mut [u8])
    requires { Readable shape a.now pivots.now k u z.old }
    ensures { ReadOff (field_of shape.field) (ent a.now shape.width) shape.rows k (vec pivots.now) u (length pivots.now) (vec z.new) }
{
    z.fill(0);
    for (t, p) in pivots.iter().enumerate() {
        z[*p] = a[t * shape.width + u];
    }
}

// Whether a reduced system has a solution; writes one to x where it has.
fn find_solution(shape: Shape, a: &[u8], pivots: &[usize], k: usize, x: &mut [u8]) -> bool
    requires { Readable shape a.now pivots.now k k x.old }
    ensures { Consistency (field_of shape.field) (ent a.now shape.width) shape.rows k result (vec x.new) }
{
    if shape.find_row(a, pivots.len(), k).is_some() {
        return false;
    }
    read_off(shape, a, pivots, k, k, x);
    true
}

// Whether the columns of a reduced system are dependent; writes a dependency to z where they are.
fn find_dependency(
    shape: Shape,
    a: &[u8],
    pivots: &[usize],
    k: usize,
    free: Option<usize>,
    z: &mut [u8],
) -> bool
    requires readable { Readable shape a.now pivots.now k k z.old }
    requires loose { Free (vec pivots.now) (length pivots.now) k free }
    ensures { Dependence (field_of shape.field) (ent a.now shape.width) shape.rows k result (vec z.new) }
{
    let Some(u) = free else {
        return false;
    };
    read_off(shape, a, pivots, k, u, z);
    z[u] = 1;
    true
}

// The answer of a system: whether its columns are dependent, and whether it has a solution. Flags, since the vectors that they speak of
// stand in lent buffers: there is no heap.
#[derive(Clone, Copy)]
pub struct Solution {
    pub dependent: bool,
    pub consistent: bool,
}

// Answers the system in `a`, of m equations in k unknowns, over field `q`. Where it is consistent, `solution` becomes a solution;
// where its columns are dependent, `dependency` becomes a dependency that is not zero. The buffer is used up, and so is `pivots`.
pub fn solve(
    q: Gf,
    a: &mut [u8],
    m: usize,
    k: usize,
    pivots: &mut [usize],
    solution: &mut [u8],
    dependency: &mut [u8],
) -> Solution
    requires { Solvable q a.old m k pivots.old solution.old dependency.old }
    ensures { Solved (field_of q) (ent a.old (k + 1)) m k result.dependent result.consistent
        (vec solution.new) (vec dependency.new) }
{
    let shape = Shape {
        field: q,
        rows: m,
        width: k + 1,
    };
    let reduced = shape.reduce(a, k, pivots);
    let pivots = &pivots[..reduced.rank];
    let consistent = find_solution(shape, a, pivots, k, solution);
    let dependent = find_dependency(shape, a, pivots, k, reduced.free, dependency);
    Solution {
        dependent,
        consistent,
    }
}
