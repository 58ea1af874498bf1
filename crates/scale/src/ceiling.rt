// The ceiling of a scale, and penalties held to it.
ghost use Rattle.std.specs.Prelude.{◌≡◌};
ghost use Rattle.scale.specs.Ceilings.{effective, capped};

// The highest ceiling there is.
pub const HIGHEST_CEILING: u32 = 1_000_000;

// The ceiling that counts where `ceiling` is given.
pub fn effective_ceiling(ceiling: u32) -> u32
    ensures is_the_effective_ceiling { result ≡ effective ceiling }
{
    ceiling.min(HIGHEST_CEILING)
}

// The penalty that counts where `points` are given.
pub fn cap(ceiling: u32, points: u32) -> u32
    ensures is_capped { result ≡ capped ceiling points }
{
    points.min(effective_ceiling(ceiling))
}
