ghost use Rattle.std.specs.Prelude.{◌<◌};

/// The next pseudo-random number below a bound: the high bits of a linear congruential step with
/// Knuth's numbers for MMIX.
pub fn below(state: &mut u64, bound: u32) -> u32
    requires { 0 < bound }
    ensures { result < bound }
{
    *state = state
        .wrapping_mul(6364136223846793005)
        .wrapping_add(1442695040888963407);
    (*state >> 33) as u32 % bound
}
