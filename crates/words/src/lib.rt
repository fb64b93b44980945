// Bytes and bits: the test of a mark, bytes copied into a buffer, and numbers as bytes, low byte first.
#![tactic(auto)]

ghost use Rattle.std.specs.Prelude.{◌≡◌, ◌+◌, ◌*◌, ◌/◌, ◌%◌, ◌^◌, ◌≤◌, ◌<◌, eqb, length};
ghost use mathlib.Core.List.{flat_map};
ghost use Rattle.words.specs.Words.{word_bits, bytes_of, number_at, words_at};
ghost use Rattle.words.specs.Written.{Put, WordsIn};

// Whether the mark word has a mark at this column.
pub fn is_marked(word: u64, column: usize) -> bool
    requires { column < word_bits }
    ensures { result ≡ eqb (word / 2 ^ column % 2) 1 }
{
    (word >> column) % 2 == 1
}

// A buffer and a place in it: what is written are files, reports and benches of scripts, each lent as it is.

// Copies `bytes` into `out` from `at` on, and gives the place behind them. The rest of `out` is unchanged.
pub fn put(bytes: &[u8], out: &mut [u8], at: usize) -> usize
    requires { at + length bytes.now ≤ length out.old }
    ensures { Put out.old at bytes.now result out.new }
{
    // byte by byte: `copy_from_slice` is compiled here to a call of `memmove`, which nothing else of the archive for C asks for
    for (i, byte) in bytes.iter().enumerate() {
        out[at + i] = *byte;
    }
    at + bytes.len()
}

// The two bytes of an offset or a length.
pub fn size_bytes(n: usize) -> [u8; 2]
    ensures { result ≡ bytes_of 2 n }
{
    ((n % 0x1_0000) as u16).to_le_bytes()
}

// The word that these bytes are: from the high byte down.
fn word_of(bytes: &[u8]) -> u64
    requires { 8 * length bytes.now ≤ word_bits }
    ensures { result ≡ number_at (length bytes.now) bytes.now 0 }
{
    let mut word = 0;
    for byte in bytes.iter().rev() {
        word = word * 0x100 + u64::from(*byte);
    }
    word
}

// Reads the words of `size` bytes that stand from `at` on, as many as `words` has room for.
pub fn read_words(bytes: &[u8], at: usize, size: usize, words: &mut [u64])
    requires { WordsIn bytes.now at size (length words.old) }
    ensures { words.new ≡ words_at size bytes.now at (length words.old) }
{
    for (r, word) in words.iter_mut().enumerate() {
        let start = at + size * r;
        *word = word_of(&bytes[start..start + size]);
    }
}

// Fills `bytes` with the word's low bytes.
fn put_word(word: u64, bytes: &mut [u8])
    ensures { bytes.new ≡ bytes_of (length bytes.old) word }
{
    let mut left = word;
    for byte in bytes.iter_mut() {
        *byte = (left % 0x100) as u8;
        left /= 0x100;
    }
}

// Writes `size` bytes of each word into `out` from `at` on, and gives the place behind them. The rest of `out` is unchanged.
pub fn put_words(words: &[u64], size: usize, out: &mut [u8], at: usize) -> usize
    requires { at + size * length words.now ≤ length out.old }
    ensures { Put out.old at (flat_map (bytes_of size) words.now) result out.new }
{
    let mut next = at;
    for word in words {
        let end = next + size;
        put_word(*word, &mut out[next..end]);
        next = end;
    }
    next
}
