// The worst scale.
ghost use Rattle.scale.specs.Ceilings.{clamped};
ghost use Rattle.scale.specs.Worsts.{worst_join, worst_rest};
ghost use Rattle.std.proofs.Common.{rules};

use crate::Scale;
use crate::ceiling::cap;

// The larger of two penalties counts.
#[derive(Clone, Copy, Debug, Default, PartialEq, Eq)]
pub struct WorstScale;

impl Scale for WorstScale {
    ghost join = { λ _. clamped worst_join };

    ghost rest = { λ _. clamped worst_rest };

    ghost clamps = { Prim.search rules };

    ghost lawful = { Prim.search rules };

    fn join(&self, ceiling: u32, a: u32, b: u32) -> u32 {
        cap(ceiling, a).max(cap(ceiling, b))
    }

    fn rest(&self, ceiling: u32, a: u32, b: u32) -> u32 {
        let a = cap(ceiling, a);
        if a < cap(ceiling, b) { 0 } else { a }
    }
}
