// Plan 1's numbers and tables.
use crate::Facts;
use field::Gf;

pub const FACTS: Facts = Facts {
    field: Gf::Two,
    rows: 3,
    columns: 7,
    symbols: 21,
    word: 0x7f,
    word_bytes: 4,
    levels: 2,
    sums: [0, 1, 4, 4],
    totals: [0, 0, 1, 0],
    carried: 15,
    file_length: 41,
};

// Row checks, one to a line, levels in order: parity; the bits of the locations.
pub static CHECKS: [u8; 28] = *b"\
    \x01\x01\x01\x01\x01\x01\x01\
    \x01\x00\x01\x00\x01\x00\x01\
    \x00\x01\x01\x00\x00\x01\x01\
    \x00\x00\x00\x01\x01\x01\x01";

// The mark words of the check places.
pub static PLACES: [u64; 3] = [0x40, 0x40, 0x74];
