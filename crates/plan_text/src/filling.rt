// A plan filled from its text.
ghost use Rattle.std.specs.Prelude.{◌≡◌, OnErr, OnOk};
ghost use Rattle.plan_text.specs.Fills.{text_fill_after, text_fill_answer};
ghost use Rattle.plan_text.specs.Fills.{CostsAsRead, KeepsCheapTunings};
ghost use Rattle.plan_text.specs.Readings.{reading};

use crate::faults::TextFault;
use crate::room::Room;
use plan::Plan;
use scale::Scale;

// Fills an empty plan with the lists that its text says, or refuses with the text's first fault, or
// else with that of filling.
pub fn fill_from_text<S: Scale>(
    plan: &mut Plan<S>,
    ceiling: u32,
    text: &[u8],
    room: Room,
) -> Result<(), TextFault>
    ensures answers { result ≡ text_fill_answer plan.old.tables ceiling (reading text.now) }
    ensures leaves { plan.new.tables
        ≡ text_fill_after plan.old.tables ceiling (reading text.now) }
    ensures refusal_changes_nothing { OnErr result (plan.new.tables ≡ plan.old.tables) }
    ensures keeps_its_scale { plan.new.scale ≡ plan.old.scale }
    ensures every_tuning_costs_its_filled_cost { OnOk result
        (CostsAsRead (S.join plan.new.scale ceiling) plan.new.tables (reading text.now)) }
    ensures no_calls_lose_a_cheap_tuning { OnOk result
        (KeepsCheapTunings (S.join plan.new.scale ceiling) (S.rest plan.new.scale ceiling)
        plan.new.tables (reading text.now)) }
{
    let lists = room.read(text)?;
    plan.fill(ceiling, &lists.counts, &lists.own, &lists.pairs)?;
    Ok(())
}

#[cfg(test)]
mod tests {
    use super::*;
    use scale::sum::SumScale;
    use std::test::Fail;

    const NAMES: &str = "entry candidate other choice points\n";

    // What a new plan with the ceiling 9 answers to a text: nothing, or a number and a line.
    fn refused(heap: std::alloc::Global, text: &str) -> Result<Option<(u32, usize)>, TextFault> {
        let mut plan = Plan::new(SumScale);
        let room = Room::new(heap)?;
        Ok(
            fill_from_text(&mut plan, 9, text.as_bytes(), room)
                .err()
                .map(|fault| (fault.number(), fault.line())),
        )
    }

    // Texts of which the names line is none.
    const NO_NAMES: [&str; 12] = [
        "",
        "\n",
        "entry candidate other choice points",
        "entry candidate other choice points \n",
        " entry candidate other choice points\n",
        "entry  candidate other choice points\n",
        "entry candidate other choice\n",
        "entry candidate other choice points points\n",
        "entry candidate other choice choice\n",
        "entry candidate other choice Points\n",
        "entry candidate other choice points\r\n",
        "entry\tcandidate other choice points\n",
    ];

    #[test]
    fn names_lines(rt: HostRuntime) -> Result<(), Fail> {
        for text in NO_NAMES {
            assert_eq!(rt; refused(rt.alloc(), text)?, Some((19, 1)), "{}", text);
        }
        Ok(())
    }

    // Lines after the names, and what is answered.
    const LINES: [(&str, Option<(u32, usize)>); 37] = [
        (
            "0 0 - - 3\n0 1 - - 1\n1 0 - - 1\n1 1 - - 0\n0 1 1 1 4\n",
            None,
        ),
        ("0 0 - - 0\n", None),
        ("", Some((3, 0))),
        ("\n", Some((20, 2))),
        ("0 0 - - 3", Some((20, 2))),
        ("0 0 - - 3\n0 1 - - 4", Some((20, 3))),
        ("0 0 - - 3\n\n", Some((20, 3))),
        ("0 0 - - 3\r\n", Some((20, 2))),
        ("0 0 - - 3 \n", Some((20, 2))),
        (" 0 0 - - 3\n", Some((20, 2))),
        ("0 0 -  - 3\n", Some((20, 2))),
        ("0 0 - -\n", Some((20, 2))),
        ("0 0 - - 3 4\n", Some((20, 2))),
        ("0 0 - - 00\n", Some((20, 2))),
        ("0 0 - - 03\n", Some((20, 2))),
        ("0 0 - - 0000001\n", Some((20, 2))),
        ("0 0 - - 12345678\n", Some((20, 2))),
        ("0 0 - - +3\n", Some((20, 2))),
        ("0 0 - - x\n", Some((20, 2))),
        ("0 0 - - -\n", Some((20, 2))),
        ("- 0 - - 3\n", Some((20, 2))),
        ("0 - - - 3\n", Some((20, 2))),
        ("0 0 - 0 3\n", Some((20, 2))),
        ("0 0 1 - 3\n", Some((20, 2))),
        ("0 0 -- - 3\n", Some((20, 2))),
        ("0 1 - - 3\n", Some((21, 2))),
        ("1 0 - - 3\n", Some((21, 2))),
        ("0 0 - - 3\n0 0 - - 3\n", Some((21, 3))),
        ("0 0 - - 3\n0 2 - - 3\n", Some((21, 3))),
        ("0 0 - - 3\n2 0 - - 3\n", Some((21, 3))),
        ("0 0 - - 3\n1 0 - - 3\n0 1 - - 3\n", Some((21, 4))),
        (
            "0 0 - - 3\n1 0 - - 3\n0 0 1 0 4\n1 1 - - 3\n",
            Some((21, 5)),
        ),
        ("0 1 - - 3\n0 0 - - x\n", Some((21, 2))),
        ("0 0 - - 10\n", Some((5, 0))),
        ("0 0 - - 9999999\n", Some((5, 0))),
        ("0 0 - - 3\n1 0 - - 3\n1 0 0 0 4\n", Some((6, 0))),
        ("0 0 - - 3\n1 0 - - 3\n0 0 1 0 4\n0 0 1 0 4\n", Some((7, 0))),
    ];

    #[test]
    fn lines(rt: HostRuntime) -> Result<(), Fail> {
        for (lines, answer) in LINES {
            let text = format!(in rt.alloc(); "{NAMES}{lines}")?;
            assert_eq!(rt; refused(rt.alloc(), text.as_str())?, answer, "{}", lines);
        }
        Ok(())
    }

    // The names in another order; and a plan that is refused a text stays as it was.
    #[test]
    fn an_order_and_a_refusal(rt: HostRuntime) -> Result<(), Fail> {
        let text =
            "points choice entry other candidate\n3 - 0 - 0\n1 - 0 - 1\n2 - 1 - 0\n7 0 0 1 1\n";
        let mut plan = Plan::new(SumScale);
        let bad = fill_from_text(&mut plan, 9, b"entry\n", Room::new(rt.alloc())?);
        assert_eq!(rt; bad, Err(TextFault::Names));
        assert_eq!(rt; plan.entries(), 0);
        fill_from_text(&mut plan, 9, text.as_bytes(), Room::new(rt.alloc())?)?;
        assert_eq!(rt; plan.own(0, 1), Some(1));
        assert_eq!(rt; plan.own(1, 0), Some(2));
        assert_eq!(rt; plan.pair(0), Some((0, 1)));
        assert_eq!(rt; plan.cell(0, 1, 0), Some(7));
        Ok(())
    }

    // 16 entries and 8 candidates are read, and one more of either is refused; 24 pairs are filled.
    #[test]
    fn the_most(rt: HostRuntime) -> Result<(), Fail> {
        let mut text = format!(in rt.alloc(); "{NAMES}")?;
        for entry in 0..16 {
            for candidate in 0..8 {
                writeln!(text, "{entry} {candidate} - - 1")?;
            }
        }
        let entry_more = format!(in rt.alloc(); "{text}16 0 - - 1\n")?;
        assert_eq!(rt; refused(rt.alloc(), entry_more.as_str())?, Some((21, 130)));
        let candidate_more = format!(in rt.alloc(); "{text}15 8 - - 1\n")?;
        assert_eq!(rt;
            refused(rt.alloc(), candidate_more.as_str())?,
            Some((21, 130))
        );
        for entry in 0..2 {
            for other in 2..14 {
                writeln!(text, "{entry} 0 {other} 7 1")?;
            }
        }
        assert_eq!(rt; refused(rt.alloc(), text.as_str())?, None);
        text.push_str("2 0 3 0 1\n")?;
        assert_eq!(rt; refused(rt.alloc(), text.as_str())?, Some((8, 0)));
        Ok(())
    }

    // 30,720 bytes are read, and one more is refused.
    #[test]
    fn the_longest_text(rt: HostRuntime) -> Result<(), Fail> {
        let mut text = format!(in rt.alloc(); "{NAMES}0 0 - - 1\n1 0 - - 1\n0 0 1 0 99999\n")?;
        for _ in 0..3_065 {
            text.push_str("0 0 1 0 1\n")?;
        }
        assert_eq!(rt; text.as_str().len(), 30_720);
        assert_eq!(rt; refused(rt.alloc(), text.as_str())?, Some((5, 0)));
        text.push_str("1")?;
        assert_eq!(rt; refused(rt.alloc(), text.as_str())?, Some((18, 0)));
        Ok(())
    }
}
