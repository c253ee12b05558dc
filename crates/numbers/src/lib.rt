// Arithmetic that several crates need: division rounded up. The laws of it, a test of all below a number, and the first number that passes a test
// are here too.
#![tactic(auto)]

ghost use Rattle.std.specs.Prelude.{◌≡◌};
ghost use Rattle.numbers.specs.Numbers.{ceil};

// ⌈a/b⌉; 0 where b is 0, as the definition has it. No sum is formed that could be too large.
#[tactic(auto, using(crate::proofs::Ceilings::ceil_zero, crate::proofs::Ceilings::div_ceil_is))]
pub fn ceil_div(a: u64, b: u64) -> u64
    ensures { result ≡ ceil a b }
{
    if b == 0 {
        return 0;
    }
    a.div_ceil(b)
}
