// How long a call that fails is made again. Why it failed is not asked: a call that a signal interrupted, or that found a stream not
// ready, is no different from one that cannot succeed.
ghost use Rattle.std.specs.Prelude.{◌<◌, ◌≡◌};

use std::thread;
use std::time::Clock;

#[derive(Drop)]
pub struct Patience {
    // the second that the clock showed last
    second: u64,
    // how often it may still show another
    changes: usize,
    // how many tries are left
    pub tries: usize,
}

impl Patience {
    // Patience that ends when the clock's second has changed twice, so after one to two seconds, or after so many tries where the
    // clock stands still. The clock is not looked at yet: the first look is a change too.
    pub fn fresh() -> Patience
        ensures { (result.changes ≡ 3) × (result.tries ≡ 100000000) }
    {
        Patience {
            second: 0,
            changes: 3,
            tries: 100000000,
        }
    }

    // Lets other programs run, and takes from patience the try that follows.
    pub fn wait(self, clock: &impl Clock) -> Patience
        requires { 0 < self.tries }
        ensures { result.tries < self.tries }
    {
        thread::yield_now();
        let second = second(clock);
        let tries = self.tries - 1;
        if second == self.second {
            Patience { tries, ..self }
        } else if self.changes > 1 {
            Patience {
                second,
                changes: self.changes - 1,
                tries,
            }
        } else {
            Patience {
                second,
                changes: 0,
                tries: 0,
            }
        }
    }
}

// The second that the clock shows, 0 where it cannot be read.
fn second(clock: &impl Clock) -> u64 {
    clock.since_1970().map_or(0, |shown| shown.as_secs())
}
