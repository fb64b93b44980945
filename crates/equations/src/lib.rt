// Vectors and matrices over our fields, systems of equations, and the bits of words, as definitions and theorems; and how a word is
// made of bits.
#![tactic(auto)]

ghost use Rattle.std.specs.Prelude.{ℕ, ◌^◌, ◌≤◌, ◌<◌, eqb};
ghost use Rattle.equations.specs.Words.{bit_at};

// The word whose bit i is what `is_set` gives at i, for each i below `bits`; the bits above are 0.
pub fn word_of<F: Fn(usize) -> bool>(bits: usize, is_set: F) -> u64
    requires few { bits ≤ 64 }
    requires callable { (i : ℕ) → i < bits → F.pre is_set i }
    ensures small { result < 2 ^ bits }
    ensures each { (i : ℕ) → i < bits → F.post is_set i (eqb (bit_at result i) 1) }
{
    let mut word = 0;
    for i in (0..bits).rev() {
        word = word * 2 + is_set(i) as u64;
    }
    word
}
