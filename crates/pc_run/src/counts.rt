//! How far a run came.
ghost use Rattle.std.specs.Prelude.{◌≡◌, ◌≢◌, ◌+◌, ◌<◌};
ghost use Rattle.pc_sched.specs.Schedules.{turn_limit};
ghost use Rattle.pc_semantics.specs.declared.outcome.Lack.{Lack};
ghost use Rattle.pc_semantics.specs.declared.outcome.Outcome.TheVariants.{Lacks};
ghost use Rattle.pc_run.specs.Counting.{counted};

use pc_semantics::Outcome;

/// How the steps so far have ended.
#[derive(Clone, Copy)]
pub struct Counts {
    /// How many moved.
    pub moved: u64,
    /// How many were skipped.
    pub skipped: u64,
}

/// How far a run came.
#[derive(Clone, Copy)]
pub enum Progress {
    /// All steps so far moved or were skipped.
    Going(Counts),
    /// The step with this number, counted from 1, would make a text that is too long.
    TooLong(u32),
}

impl Counts {
    /// No step so far.
    pub const NONE: Counts = Counts {
        moved: 0,
        skipped: 0,
    };

    /// The progress after one more step with this outcome.
    #[inline(always)]
    pub fn with_step(self, outcome: Outcome) -> Progress
        requires few { self.moved + self.skipped < turn_limit }
        requires lacks_nothing { (l : Lack) → outcome ≢ Lacks l }
        ensures { result ≡ counted self outcome }
    {
        let Counts { moved, skipped } = self;
        match outcome {
            Outcome::Moved => Progress::Going(Counts {
                moved: moved + 1,
                skipped,
            }),
            Outcome::Skipped => Progress::Going(Counts {
                moved,
                skipped: skipped + 1,
            }),
            Outcome::TooLong => Progress::TooLong((moved + skipped + 1) as u32),
            Outcome::Lacks(_) => unreachable!(),
        }
    }
}
