// Worked cases. The contract is a table of equations that the checker computes from the
// definitions; the body makes the calls of the scales, and the answers are the table's.
#![tactic(auto)]

ghost use Rattle.std.specs.Prelude.{◌≡◌, [], ◌∷◌};
ghost use Rattle.cases.specs.Closings.{ClosingCases};
ghost use Rattle.cases.specs.Lifts.{AmountCases, MovingCases};
ghost use Rattle.cases.specs.Scales.{ScaleCases};

use scale::Scale;
use scale::sum::SumScale;
use scale::worst::WorstScale;

// What the calls of the scales answer, row by row.
pub fn worked_cases() -> [u32; 5]
    ensures scales { ScaleCases }
    ensures closing { ClosingCases }
    ensures amounts { AmountCases }
    ensures moves { MovingCases }
    ensures answers_are_the_tables { result ≡ 10 ∷ 5 ∷ 10 ∷ 5 ∷ 5 ∷ [] }
{
    [
        SumScale.join(10, 6, 7),
        SumScale.rest(10, 9, 4),
        SumScale.rest(10, 10, 4),
        WorstScale.join(10, 3, 5),
        WorstScale.rest(10, 5, 3),
    ]
}
