// How late reports may be: the tolerance of a cycle, the largest lateness for which it passes the check of `cycle`; and the most tolerant
// plan, the box plan for the largest lateness for which there is one. Where something is found for one lateness, something is found for each
// smaller one, so that either is found by bisection, in 11 questions. The bound of 1,440 minutes is that of what is asked, which answers
// 26 above it. The loop stands twice: of a question that is handed in, each contract would have to say what it answers.
#![tactic(auto)]

ghost use Rattle.std.specs.Prelude.{◌≡◌, ◌≤◌, ◌<◌, IfOk};
ghost use Rattle.spec.specs.Refusals.{numbered};
ghost use Rattle.pairs.specs.Pairs.{pairs_of};
ghost use Rattle.tolerance.specs.Tolerance.{tolerance, tolerant_plan};
ghost use Rattle.tolerance.specs.Search.{next, better};

use plan::Plan;
use spec::Spec;
use spec::refusal::Refusal;

// The steps of the bisection, each half of the one before. From one below 0 they reach each number of minutes up to 2,046.
const STEPS: [u32; 11] = [1024, 512, 256, 128, 64, 32, 16, 8, 4, 2, 1];

// A lateness, and what was found for it.
#[derive(Clone, Copy, Debug, PartialEq, Eq)]
pub struct Late<T> {
    pub lateness: u32,
    pub found: T,
}

// The lateness to ask about next: the step above the largest so far, which counts as one below 0 where nothing was found yet.
fn next<T: Copy>(best: Result<Late<T>, Refusal>, step: u32) -> u32
    requires some { 0 < step }
    requires few { step ≤ 1024 }
    requires late { IfOk best (λ t. t.lateness ≤ 1440) }
    ensures { result ≡ next (numbered best) step }
{
    match best {
        Ok(late) => late.lateness + step,
        Err(_) => step - 1,
    }
}

// The largest after one more answer. Where nothing was found yet the newest refusal is kept, for it is that of the smallest lateness.
fn better<T: Copy>(
    best: Result<Late<T>, Refusal>,
    lateness: u32,
    answer: Result<T, Refusal>,
) -> Result<Late<T>, Refusal>
    ensures { numbered result ≡ better (numbered best) lateness (numbered answer) }
{
    match (best, answer) {
        (_, Ok(found)) => Ok(Late { lateness, found }),
        (Ok(late), Err(_)) => Ok(late),
        (Err(_), Err(refusal)) => Err(refusal),
    }
}

// The tolerance of a cycle that is held flat, or refusal 3, 4, 24 or 12 to 16.
pub fn tolerance(spec: Spec, words: &[u16]) -> Result<u32, Refusal>
    ensures { numbered result ≡ tolerance spec (pairs_of words.now) }
{
    // The first question takes its place, with what is found or with a refusal.
    let mut best = Err(Refusal::TooLate);
    for step in STEPS {
        let lateness = next(best, step);
        best = better(best, lateness, cycle::check_late(spec, words, lateness));
    }
    best.map(|late| late.lateness)
}

// The most tolerant plan, or refusal 3, 4, 24 or 30.
pub fn tolerant_plan(spec: Spec) -> Result<Late<Plan>, Refusal>
    ensures { numbered result ≡ tolerant_plan spec }
{
    let mut best = Err(Refusal::TooLate);
    for step in STEPS {
        let lateness = next(best, step);
        best = better(best, lateness, boxplan::box_plan(spec, lateness));
    }
    best
}
