// Sums of rows under checks, and which rows have marks.
ghost use Rattle.std.specs.Prelude.{◌≡◌, ◌*◌, not, map, ◌^◌, ◌<◌, ◌≤◌, eqb, length, get_or};
ghost use Rattle.field.specs.Lists.{up_from};
ghost use Rattle.field.specs.Ours.{field_of};
ghost use Rattle.fills.specs.Marks.{bits_of};
ghost use Rattle.plans.specs.Tables.{row_sums};
ghost use Rattle.levels.specs.Learned.{LossyReady};

use field::Gf;

// Writes the sums of the rows under one check, as many as there are places for them. A row is as long as the check.
pub fn across(q: Gf, check: &[u8], symbols: &[u8], sums: &mut [u8])
    requires { length sums.old * length check.now ≤ length symbols.now }
    ensures { sums.new ≡ row_sums (field_of q) (length sums.old) symbols.now check.now }
{
    let n = check.len();
    for (r, sum) in sums.iter_mut().enumerate() {
        let start = r * n;
        let end = start + n;
        *sum = q.dot(check, &symbols[start..end]);
    }
}

// The word whose bit r is set where row r has marks.
pub fn lossy_word(rows: usize, marks: &[u64]) -> u64
    requires { LossyReady rows marks.now }
    ensures result_value { bits_of rows result ≡ map (λ r. not (eqb (get_or marks.now r 0) 0)) (up_from 0 rows) }
    ensures upper_bound { result < 2 ^ rows }
{
    equations::word_of(rows, |r| marks[r] != 0)
}
