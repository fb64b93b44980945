// The text that mend prints for a stripe file, or for any other bytes.
#![tactic(auto)]

ghost use Rattle.std.specs.Prelude.{◌≡◌, ◌+◌, ◌≤◌, length};
ghost use Rattle.plans.specs.Plan.{plan_of};
ghost use Rattle.plans.specs.Answers.{numbered, report_values};
ghost use Rattle.plans.specs.Tables.{padded};
ghost use Rattle.words.specs.Written.{Put};
ghost use Rattle.files.specs.File.{plan_in, symbols_in, marks_in};
ghost use Rattle.texts.specs.Text.{text_room, «grid» as grid_of, answer_text, told_text, mend_text, printed};
ghost use Rattle.printing.specs.Parts.{Reported, Told, Mended, Loaded};

use numbers::Numbered;
use plans::{Answer, ROWS, Refusal, Report, SYMBOLS};
use texts::{ROOM, Text};

// What follows an answer's number: the values of Restored and of Stuck and all rows, or the place of a Clash.
fn put_report(text: &mut Text<'_>, plan: usize, report: Report, stripe: &[u8], marks: &[u64])
    requires { Reported plan report stripe.now marks.now text.old.out.now text.old.at }
    ensures same_buffer { text.new.out.ghost_name ≡ text.old.out.ghost_name }
    ensures written { Put text.old.out.now text.old.at (answer_text report.answer (report_values (plan_of plan) report) (grid_of (plan_of plan) stripe.now marks.now)) text.new.at text.new.out.now }
{
    match report.answer {
        Answer::Restored | Answer::Stuck => {
            text.put_summary(plan, report);
            text.put_grid(plan, stripe, marks);
        }
        Answer::Clash(place) => {
            text.put_place(place);
            text.put(b"\n");
        }
    }
}

// What follows the plan.
fn put_told(
    text: &mut Text<'_>,
    plan: usize,
    told: Result<Report, Refusal>,
    stripe: &[u8],
    marks: &[u64],
)
    requires { Told plan (numbered told) stripe.now marks.now text.old.out.now text.old.at }
    ensures same_buffer { text.new.out.ghost_name ≡ text.old.out.ghost_name }
    ensures written { Put text.old.out.now text.old.at (told_text (plan_of plan) (numbered told) (grid_of (plan_of plan) stripe.now marks.now)) text.new.at text.new.out.now }
{
    match told {
        Ok(report) => {
            text.put_item(b" answer ", report.answer.number());
            put_report(text, plan, report, stripe, marks);
        }
        Err(refusal) => {
            text.put_item(b" answer ", refusal.number());
            text.put(b"\n");
        }
    }
}

// What is printed of a file that is not refused. It is read into `stripe` and `marks`, and mended there.
fn put_mended(text: &mut Text<'_>, plan: usize, file: &[u8], stripe: &mut [u8], marks: &mut [u64])
    requires { Mended plan file.now stripe.old marks.old text.old.out.now text.old.at }
    ensures same_buffer { text.new.out.ghost_name ≡ text.old.out.ghost_name }
    ensures written { Put text.old.out.now text.old.at (mend_text plan (symbols_in file.now) (marks_in file.now)) text.new.at text.new.out.now }
{
    reading::load(file, stripe, marks);
    let told = repair::mend(plan, stripe, marks);
    text.put_item(b"plan ", plan);
    put_told(text, plan, told, stripe, marks);
}

// The same, with room for any stripe.
fn put_loaded(text: &mut Text<'_>, file: &[u8])
    requires { Loaded file.now text.old.out.now text.old.at }
    ensures same_buffer { text.new.out.ghost_name ≡ text.old.out.ghost_name }
    ensures written { Put text.old.out.now text.old.at (mend_text (plan_in file.now) (symbols_in file.now) (marks_in file.now)) text.new.at text.new.out.now }
{
    let plan = reading::plan_in(file);
    let facts = tables::facts_of(plan);
    let mut stripe = [0u8; SYMBOLS];
    let mut marks = [0u64; ROWS];
    put_mended(
        text,
        plan,
        file,
        &mut stripe[..facts.symbols],
        &mut marks[..facts.rows],
    );
}

// What is printed of any file.
fn put_text(text: &mut Text<'_>, file: &[u8])
    requires { text.old.at + text_room ≤ length text.old.out.now }
    ensures same_buffer { text.new.out.ghost_name ≡ text.old.out.ghost_name }
    ensures written { Put text.old.out.now text.old.at (printed file.now) text.new.at text.new.out.now }
{
    match reading::file_refusal(file, true) {
        Ok(()) => put_loaded(text, file),
        Err(refusal) => {
            text.put_item(b"refused ", refusal.number());
            text.put(b"\n");
        }
    }
}

// What `mend` prints for any bytes that it reads: the text at the front of `out` and zeros behind it, and its length.
pub fn text(file: &[u8], out: &mut [u8; ROOM]) -> usize
    ensures value { result ≡ length (printed file.now) }
    ensures out_after { out.new ≡ padded text_room (printed file.now) }
{
    let mut text = Text::new(out);
    put_text(&mut text, file);
    text.at
}
