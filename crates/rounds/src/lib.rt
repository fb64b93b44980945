// Rounds of row steps and level steps until they stop, and the report of how they stop.
#![tactic(auto)]

ghost use Rattle.std.specs.Prelude.{◌≡◌, [], ◌≤◌, length};
ghost use Rattle.std.specs.List.{filter};
ghost use Rattle.plans.specs.Plan.{plan_of};
ghost use Rattle.steps.specs.Parts.{bench_of, standing_of, Ready};
ghost use Rattle.rounds.specs.Reports.{rounds_on, bare, end_report};
ghost use Rattle.rounds.specs.Ended.{start_of, Ended, has_marks};

use levels::Learning;
use plans::{Answer, LEARNED, Place, Report};

// How many of the rows have marks.
fn rows_left(marks: &[u64]) -> usize
    ensures { result ≡ length (filter has_marks marks.now) }
{
    marks.iter().filter(|word| **word != 0).count()
}

// A report with nothing beside its answer.
fn bare_report(answer: Answer) -> Report
    ensures { result ≡ bare answer }
{
    Report {
        answer,
        level: 0,
        rows: [0; 3],
        left: 0,
    }
}

// What the rounds end in at Blocked or Top: Restored where no mark is left, else Stuck. By parts: a stripe whose every row is tied by count is
// never copied to a bench.
pub fn end_report(plan: usize, level: usize, restored: [usize; 3], marks: &[u64]) -> Report
    requires { (plan_of plan).rows ≤ length marks.now }
    ensures { result ≡ end_report (standing_of (bench_of plan level [] marks.now []) 0 restored) }
{
    let facts = tables::facts_of(plan);
    let left = rows_left(&marks[..facts.rows]);
    let answer = if left == 0 {
        Answer::Restored
    } else {
        Answer::Stuck
    };
    Report {
        answer,
        level,
        rows: restored,
        left,
    }
}

// Rounds on a bench at level 1 of these symbols and marks, all sums zero, until they stop. Symbols and marks become those of the bench
// where the rounds end.
pub fn rounds(plan: usize, symbols: &mut [u8], marks: &mut [u64]) -> Report
    requires { Ready (start_of plan symbols.old marks.old) }
    ensures { Ended (rounds_on plan (start_of plan symbols.old marks.old)) result symbols.new marks.new }
{
    let levels = tables::facts_of(plan).levels;
    let mut sums = [0u8; LEARNED];
    let mut restored = [0usize; 3];
    let mut level = 1;
    // the level counts the rounds
    loop {
        let walk = walks::walk_rows(plan, level, symbols, marks, &sums);
        if let Some(row) = walk.clash {
            return bare_report(Answer::Clash(Place::Row { row, level }));
        }
        restored[level - 1] = walk.filled;
        if level == levels {
            break;
        }
        match levels::learn(plan, level, symbols, marks, &mut sums) {
            Learning::Failing => {
                return bare_report(Answer::Clash(Place::Across { level: level + 1 }));
            }
            Learning::Blocked => break,
            Learning::Learned => level += 1,
        }
    }
    end_report(plan, level, restored, marks)
}
