// What is printed: a text, and its parts: numbers, rows, and what stands in its first line.
#![tactic(auto)]

ghost use Rattle.std.specs.Prelude.{◌≡◌, ◌+◌, ◌*◌, ◌%◌, ◌≤◌, ◌<◌, [], ◌∷◌, length, replicate};
ghost use mathlib.Core.List.{◌++◌, flat_map};
ghost use Rattle.field.specs.Lists.{when◌then◌else◌};
ghost use Rattle.fills.specs.Marks.{bits_of};
ghost use Rattle.plans.specs.Plan.{plan_of};
ghost use Rattle.plans.specs.Answers.{place_values, end_values};
ghost use Rattle.words.specs.Written.{Put};
ghost use Rattle.texts.specs.Text.{decimal, hex, «item» as item_of, line_end, symbol_digits, symbol_text, shown, «grid» as grid_of, end_text, place_text};
ghost use Rattle.texts.specs.Parts.{number_room, count_room, summary_room, place_room, Within, Item, SymbolPut, Line, Grid, Counts, Summary, PlacePut};

use plans::{Place, Report};

// How many bytes a text has room for.
pub const ROOM: usize = 640;

// A buffer that a text is written into: what stands before `at` is written, and what follows is room. Its parts are no `Display`: each byte of
// them is promised, and of what `fmt` writes a proof learns nothing.
#[derive(Drop)]
pub struct Text<'a> {
    pub out: &'a mut [u8],
    pub at: usize,
}

impl<'a> Text<'a> {
    // An empty text, and zeros for all that is not written.
    pub fn new(out: &'a mut [u8]) -> Text<'a>
        ensures same_buffer { result.out.ghost_name ≡ out.entry.ghost_name }
        ensures zeros { result.out.now ≡ replicate (length out.old) 0 }
        ensures empty { result.at ≡ 0 }
    {
        out.fill(0);
        Text { out, at: 0 }
    }

    // ---- bytes and numbers

    fn push(&mut self, byte: u8)
        requires { self.old.at < length self.old.out.now }
        ensures same_buffer { self.new.out.ghost_name ≡ self.old.out.ghost_name }
        ensures written { Put self.old.out.now self.old.at (byte ∷ []) self.new.at self.new.out.now }
    {
        self.out[self.at] = byte;
        self.at += 1;
    }

    pub fn put(&mut self, bytes: &[u8])
        requires { self.old.at + length bytes.now ≤ length self.old.out.now }
        ensures same_buffer { self.new.out.ghost_name ≡ self.old.out.ghost_name }
        ensures written { Put self.old.out.now self.old.at bytes.now self.new.at self.new.out.now }
    {
        self.at = words::put(bytes, self.out, self.at);
    }

    // A number below 100 in decimal, without leading zeros.
    fn put_number(&mut self, n: usize)
        requires { Item 0 n self.old.out.now self.old.at }
        ensures same_buffer { self.new.out.ghost_name ≡ self.old.out.ghost_name }
        ensures written { Within number_room self.old.out.now self.old.at (decimal n) self.new.at self.new.out.now }
    {
        let ones = b'0' + (n % 10) as u8;
        if n < 10 {
            self.push(ones);
        } else {
            self.put(&[b'0' + (n / 10) as u8, ones]);
        }
    }

    // A word and a number below 100.
    pub fn put_item(&mut self, word: &[u8], n: usize)
        requires { Item (length word.now) n self.old.out.now self.old.at }
        ensures same_buffer { self.new.out.ghost_name ≡ self.old.out.ghost_name }
        ensures written { Within (length word.now + number_room) self.old.out.now self.old.at (word.now ++ decimal n) self.new.at self.new.out.now }
    {
        self.put(word);
        self.put_number(n);
    }

    // ---- rows

    // A symbol of one digit, or of two, the high one first.
    fn put_symbol(&mut self, digits: usize, marked: bool, symbol: u8)
        requires { SymbolPut digits self.old.out.now self.old.at }
        ensures same_buffer { self.new.out.ghost_name ≡ self.old.out.ghost_name }
        ensures written { Put self.old.out.now self.old.at (symbol_text digits marked symbol) self.new.at self.new.out.now }
    {
        let low = digit(marked, symbol);
        let is_alone = digits == 1;
        if is_alone {
            self.push(low);
        } else {
            self.put(&[digit(marked, symbol / 16), low]);
        }
    }

    // A row, its symbols of so many digits, and a line feed.
    fn put_line(&mut self, digits: usize, word: u64, row: &[u8])
        requires { Line digits row.now self.old.out.now self.old.at }
        ensures same_buffer { self.new.out.ghost_name ≡ self.old.out.ghost_name }
        ensures written { Put self.old.out.now self.old.at (shown digits (bits_of (length row.now) word) row.now ++ line_end) self.new.at self.new.out.now }
    {
        for (column, symbol) in row.iter().enumerate() {
            let marked = words::is_marked(word, column);
            self.put_symbol(digits, marked, *symbol);
        }
        self.push(b'\n');
    }

    // All rows, a line each.
    pub fn put_grid(&mut self, plan: usize, stripe: &[u8], marks: &[u64])
        requires { Grid plan stripe.now marks.now self.old.out.now self.old.at }
        ensures same_buffer { self.new.out.ghost_name ≡ self.old.out.ghost_name }
        ensures written { Put self.old.out.now self.old.at (grid_of (plan_of plan) stripe.now marks.now) self.new.at self.new.out.now }
    {
        let columns = tables::facts_of(plan).columns;
        let digits = symbol_digits(plan);
        for (row, word) in stripe.chunks(columns).zip(marks) {
            self.put_line(digits, *word, row);
        }
    }

    // ---- the first line

    // Counts, up to 3, a space before each.
    fn put_counts(&mut self, counts: &[usize])
        requires { Counts counts.now self.old.out.now self.old.at }
        ensures same_buffer { self.new.out.ghost_name ≡ self.old.out.ghost_name }
        ensures written { Within (count_room * length counts.now) self.old.out.now self.old.at (flat_map (item_of " ") counts.now) self.new.at self.new.out.now }
    {
        for count in counts {
            self.put_item(b" ", *count);
        }
    }

    // Level, rows left, and rows restored at each level of the plan.
    pub fn put_summary(&mut self, plan: usize, report: Report)
        requires { Summary plan report self.old.out.now self.old.at }
        ensures same_buffer { self.new.out.ghost_name ≡ self.old.out.ghost_name }
        ensures written { Within summary_room self.old.out.now self.old.at (end_text (end_values (plan_of plan) report) ++ line_end) self.new.at self.new.out.now }
    {
        let rows = report.rows;
        let levels = tables::facts_of(plan).levels;
        self.put_item(b" level ", report.level);
        self.put_item(b" left ", report.left);
        self.put(b" rows");
        self.put_counts(&rows[..levels]);
        self.put(b"\n");
    }

    // The place of a Clash.
    pub fn put_place(&mut self, place: Place)
        requires { PlacePut place self.old.out.now self.old.at }
        ensures same_buffer { self.new.out.ghost_name ≡ self.old.out.ghost_name }
        ensures written { Within place_room self.old.out.now self.old.at (place_text place (place_values place)) self.new.at self.new.out.now }
    {
        match place {
            Place::Row { row, level } => {
                self.put_item(b" level ", level);
                self.put_item(b" place row ", row);
            }
            Place::Across { level } => {
                self.put_item(b" level ", level);
                self.put(b" place across");
            }
        }
    }
}

// How many hex digits a symbol of the plan has.
fn symbol_digits(plan: usize) -> usize
    ensures { result ≡ symbol_digits (plan_of plan) }
{
    let is_small = tables::facts_of(plan).field.size() <= 16;
    if is_small { 1 } else { 2 }
}

// What is shown for the low hex digit of a number: the digit, lowercase, or `?` where it is marked.
fn digit(marked: bool, number: u8) -> u8
    ensures { result ≡ (when marked then 63 else hex (number % 16)) }
{
    let low = number % 16;
    if marked {
        return b'?';
    }
    if low < 10 {
        return b'0' + low;
    }
    b'a' - 10 + low
}
