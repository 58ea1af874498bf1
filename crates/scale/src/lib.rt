// How penalties join. A scale is a trait with its laws; the sum and the worst scale keep them, and
// the joined penalty of a list is one function for every scale.
#![tactic(auto)]

ghost use Rattle.std.specs.Prelude.{◌≡◌, ℕ};
ghost use Rattle.scale.specs.Ceilings.{effective};
ghost use Rattle.scale.specs.Laws.{Clamps, Lawful};

pub mod ceiling;
pub mod joined;
pub mod sum;
pub mod worst;

// A way to join two penalties under a ceiling, and to take one off another. Published as a
// valuation structure: `join` is its addition ⊕, `rest` its subtraction ⊖, and the ceiling its top.
pub trait Scale {
    // What `join` and `rest` mean, given the scale, a ceiling and two penalties.
    ghost join: { Self → ℕ → ℕ → ℕ → ℕ };

    ghost rest: { Self → ℕ → ℕ → ℕ → ℕ };

    // The join of a and b.
    fn join(&self, ceiling: u32, a: u32, b: u32) -> u32
        ensures is_the_join { result ≡ join self.now ceiling a b };

    // The rest of a after b.
    fn rest(&self, ceiling: u32, a: u32, b: u32) -> u32
        ensures is_the_rest { result ≡ rest self.now ceiling a b };

    // They answer for all numbers, those above the ceiling too.
    ghost clamps: { (s : Self) → Clamps (join s) (rest s) };

    // At each ceiling they keep the laws of a scale.
    ghost lawful: { (s : Self) (c : ℕ) → Lawful (effective c) (join s c) (rest s c) };
}
