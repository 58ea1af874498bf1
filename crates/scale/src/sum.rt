// The sum scale.
ghost use Rattle.scale.specs.Ceilings.{clamped};
ghost use Rattle.scale.specs.Sums.{sum_join, sum_rest};
ghost use Rattle.std.proofs.Common.{rules};

use crate::Scale;
use crate::ceiling::{cap, effective_ceiling};

// Penalties add up, and what has reached the ceiling stays there.
#[derive(Clone, Copy, Debug, Default, PartialEq, Eq)]
pub struct SumScale;

impl Scale for SumScale {
    ghost join = { λ _. clamped sum_join };

    ghost rest = { λ _. clamped sum_rest };

    ghost clamps = { Prim.search rules };

    ghost lawful = { Prim.search rules };

    fn join(&self, ceiling: u32, a: u32, b: u32) -> u32 {
        effective_ceiling(ceiling).min(cap(ceiling, a) + cap(ceiling, b))
    }

    fn rest(&self, ceiling: u32, a: u32, b: u32) -> u32 {
        let a = cap(ceiling, a);
        if a < effective_ceiling(ceiling) {
            a.saturating_sub(cap(ceiling, b))
        } else {
            a
        }
    }
}
