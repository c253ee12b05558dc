// A plan written out as a cycle: the k reports of a proper plan of either kind, each with its gap to the next and its size, as the cycle
// file. What a plan's reports are is left to the crate `plan`, and which bytes a cycle has to `writer`. Refusals 11, 12 and 20.
#![tactic(auto)]

ghost use Rattle.std.specs.Prelude.{◌≡◌, ◌*◌, ◌≤◌, length};
ghost use Rattle.spec.specs.Refusals.{numbered};
ghost use Rattle.pairs.specs.Pairs.{flatten, laid_over};
ghost use Rattle.cyclefile.specs.File.{file_answer};
ghost use Rattle.planfile.specs.PlanFile.{plan_pairs, plan_file, file_after};

use plan::{Plan, ProperPlan};
use spec::refusal::Refusal;

// Lays the reports of one period in front of lent words: gap, size, gap, size, ..
fn lay(proper: ProperPlan, words: &mut [u16])
    requires { 2 * proper.plan.count ≤ length words.old }
    ensures { words.new ≡ laid_over (flatten (plan_pairs proper.plan)) words.old }
{
    for i in 0..proper.plan.count {
        let at = 2 * i as usize;
        // Both fit, as is proved: `try_from` would bring an error that never comes.
        words[at] = proper.gap(i) as u16;
        words[at + 1] = proper.size(i) as u16;
    }
}

// Writes a plan out as a cycle file, and tells how many bytes that has.
pub fn write(plan: Plan, file: &mut [u8]) -> Result<u32, Refusal>
    ensures number { numbered result ≡ file_answer (plan_file (length file.old) plan) }
    ensures bytes { file.new ≡ file_after (plan_file (length file.old) plan) file.old }
{
    let proper = plan.proper()?;
    let count = plan.count as usize;
    if pairs::MOST_PAIRS < count {
        return Err(Refusal::Count);
    }
    let mut words = [0u16; 1024];
    lay(proper, &mut words);
    let length = writer::write(&words[..2 * count], file)?;
    // It fits, as is proved: `try_from` would bring an error that never comes.
    Ok(length as u32)
}
