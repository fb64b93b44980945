// Rooms, what a bench is, and what each call answers.
#![tactic(auto)]

ghost use Rattle.std.specs.Prelude.{◌≡◌};
ghost use Rattle.plans.specs.Answers.{refusal_number};

// The most rows, columns and symbols that a stripe has; learned sums of a row, and of all rows; weighted totals of a
// level.
pub const ROWS: usize = 12;

pub const COLUMNS: usize = 64;

pub const SYMBOLS: usize = 512;

pub const SUMS: usize = 19;

pub const LEARNED: usize = ROWS * SUMS;

pub const TOTALS: usize = 3;

// A plan's number, the level t that was reached, symbols and mark words row after row, and each row's learned sums, SUMS places a row.
#[derive(Clone, Copy)]
pub struct Bench {
    pub plan: usize,
    pub level: usize,
    pub symbols: [u8; SYMBOLS],
    pub marks: [u64; ROWS],
    pub sums: [u8; LEARNED],
}

impl Bench {
    // The bench of a refused start.
    pub const EMPTY: Bench = Bench {
        plan: 0,
        level: 0,
        symbols: [0; SYMBOLS],
        marks: [0; ROWS],
        sums: [0; LEARNED],
    };
}

// Why a call is refused. Its number is that of the customer's table.
#[derive(Clone, Copy, Debug, PartialEq, Eq)]
pub enum Refusal {
    UnknownPlan = 10,
    WrongLength = 11,
    MarkBeyondColumns = 12,
    NoSymbol = 13,
    NoSuchRow = 14,
    NoSuchLevel = 15,
    NoCodeword = 16,
    WrongFileLength = 20,
    WrongHeader = 21,
    SymbolUnderMark = 22,
}

impl From<Refusal> for usize {
    ghost from_gives = { λ refusal number. number ≡ refusal_number refusal };

    #[tactic(auto, unfolding(crate::specs::Answers::refusal_number))]
    fn from(refusal: Refusal) -> usize {
        refusal as usize
    }
}

// What a row step or a level step answers.
#[derive(Clone, Copy, Debug, PartialEq, Eq)]
pub enum Step {
    Whole,
    Filled,
    Tied,
    Raised,
    Blocked,
    Top,
    Clash,
}

// Where a Clash is: a row at a level, or a level across rows.
#[derive(Clone, Copy, Debug, PartialEq, Eq)]
pub enum Place {
    Row { row: usize, level: usize },
    Across { level: usize },
}

// What mending in one call answers.
#[derive(Clone, Copy, Debug, PartialEq, Eq)]
pub enum Answer {
    Restored,
    Stuck,
    Clash(Place),
}

// Mending's answer, and beside it the level reached, the rows restored at each level and the rows left. Beside a Clash they are 0.
#[derive(Clone, Copy, Debug, PartialEq, Eq)]
pub struct Report {
    pub answer: Answer,
    pub level: usize,
    pub rows: [usize; 3],
    pub left: usize,
}
