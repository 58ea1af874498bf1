// The program's work: its input in, its output out.
ghost use Rattle.std.specs.Prelude.{◌≡◌, IfOk, string_bytes};
ghost use Rattle.report.specs.Readings.{reading};
ghost use Rattle.report.specs.Answers.{refusal_lines, written_for};
ghost use Rattle.report.specs.PlanReports.{plan_report};
ghost use Rattle.report.specs.RowReports.{report_of};
ghost use Rattle.report.specs.Refusals.{number_of};
ghost use Rattle.report.specs.SweepReports.{settling_report};

use crate::plans::push_plans;
use crate::read::read;
use crate::refusal::Refusal;
use crate::rows::row_report;
use crate::sweeps::push_settlings;
use std::alloc::{AllocError, Global};

// A refusal's number and line; a proved fact, which a `fmt` of the refusal would not be.
fn refusal_text(heap: Global, refusal: Refusal) -> Result<String, AllocError>
    ensures is_the_refusal { IfOk result (λ s. string_bytes s
        ≡ refusal_lines (number_of refusal.reason) refusal.line) }
{
    let number = refusal.reason.number();
    let line = refusal.line;
    format!(in heap; "refusal line\n{number} {line}\n")
}

// The report of a row, and of the plan at its ceiling: what it costs, and how it settles.
fn report(heap: Global, ceiling: u32, penalties: &[u32]) -> Result<String, AllocError>
    ensures is_the_report { IfOk result (λ s. string_bytes s
        ≡ settling_report ceiling (plan_report ceiling
        (report_of (record { ceiling = ceiling; penalties = penalties.now })))) }
{
    let mut out = row_report(heap, ceiling, penalties)?;
    push_plans(&mut out, ceiling)?;
    push_settlings(&mut out, ceiling)?;
    Ok(out)
}

// The report of what the text gives, or the refusal; only want of memory is an error.
pub fn answer(heap: Global, text: &[u8]) -> Result<String, AllocError>
    ensures report_or_refusal { IfOk result (λ s. string_bytes s ≡ written_for (reading text.now)) }
{
    let mut penalties = Vec::with_capacity(heap, text.len())?;
    match read(text, &mut penalties) {
        Ok(ceiling) => report(heap, ceiling, &penalties),
        Err(refusal) => refusal_text(heap, refusal),
    }
}

#[cfg(test)]
mod tests {
    use super::*;
    use std::test::Fail;

    // Texts, and what is answered.
    const CASES: [(&str, &str); 15] = [
        (
            "10\n6\n7\n",
            "scale penalty join\n\
            sum 6 6\n\
            sum 7 10\n\
            worst 6 6\n\
            worst 7 7\n\
            scale joined\n\
            sum 10\n\
            worst 7\n\
            scale first second floor own own cell cost\n\
            sum 0 0 0 3 1 0 4\n\
            sum 0 1 0 3 0 0 3\n\
            sum 1 0 0 1 1 0 2\n\
            sum 1 1 0 1 0 4 5\n\
            worst 0 0 0 3 1 0 3\n\
            worst 0 1 0 3 0 0 3\n\
            worst 1 0 0 1 1 0 1\n\
            worst 1 1 0 1 0 4 4\n\
            scale sweep floor entry candidate own open\n\
            sum 0 0 0 0 3 1\n\
            sum 0 0 0 1 1 1\n\
            sum 0 0 1 0 1 1\n\
            sum 0 0 1 1 0 1\n\
            sum 1 1 0 0 2 0\n\
            sum 1 1 0 1 0 1\n\
            sum 1 1 1 0 1 1\n\
            sum 1 1 1 1 0 1\n\
            sum 2 2 0 0 2 0\n\
            sum 2 2 0 1 0 1\n\
            sum 2 2 1 0 0 1\n\
            sum 2 2 1 1 3 0\n\
            sum 3 2 0 0 2 0\n\
            sum 3 2 0 1 0 1\n\
            sum 3 2 1 0 0 1\n\
            sum 3 2 1 1 3 0\n\
            worst 0 0 0 0 3 1\n\
            worst 0 0 0 1 1 1\n\
            worst 0 0 1 0 1 1\n\
            worst 0 0 1 1 0 1\n\
            worst 1 1 0 0 3 0\n\
            worst 1 1 0 1 1 1\n\
            worst 1 1 1 0 1 1\n\
            worst 1 1 1 1 0 1\n\
            worst 2 1 0 0 3 0\n\
            worst 2 1 0 1 1 1\n\
            worst 2 1 1 0 1 1\n\
            worst 2 1 1 1 4 0\n\
            worst 3 1 0 0 3 0\n\
            worst 3 1 0 1 1 1\n\
            worst 3 1 1 0 1 1\n\
            worst 3 1 1 1 4 0\n",
        ),
        (
            "4\n",
            "scale penalty join\n\
            scale joined\n\
            sum 0\n\
            worst 0\n\
            scale first second floor own own cell cost\n\
            sum 0 0 0 3 1 0 4\n\
            sum 0 1 0 3 0 0 3\n\
            sum 1 0 0 1 1 0 2\n\
            sum 1 1 0 1 0 4 4\n\
            worst 0 0 0 3 1 0 3\n\
            worst 0 1 0 3 0 0 3\n\
            worst 1 0 0 1 1 0 1\n\
            worst 1 1 0 1 0 4 4\n\
            scale sweep floor entry candidate own open\n\
            sum 0 0 0 0 3 1\n\
            sum 0 0 0 1 1 1\n\
            sum 0 0 1 0 1 1\n\
            sum 0 0 1 1 0 1\n\
            sum 1 1 0 0 2 0\n\
            sum 1 1 0 1 0 1\n\
            sum 1 1 1 0 1 1\n\
            sum 1 1 1 1 0 1\n\
            sum 2 2 0 0 2 0\n\
            sum 2 2 0 1 0 1\n\
            sum 2 2 1 0 0 1\n\
            sum 2 2 1 1 4 0\n\
            sum 3 2 0 0 2 0\n\
            sum 3 2 0 1 0 1\n\
            sum 3 2 1 0 0 1\n\
            sum 3 2 1 1 4 0\n\
            worst 0 0 0 0 3 1\n\
            worst 0 0 0 1 1 1\n\
            worst 0 0 1 0 1 1\n\
            worst 0 0 1 1 0 1\n\
            worst 1 1 0 0 3 0\n\
            worst 1 1 0 1 1 1\n\
            worst 1 1 1 0 1 1\n\
            worst 1 1 1 1 0 1\n\
            worst 2 1 0 0 3 0\n\
            worst 2 1 0 1 1 1\n\
            worst 2 1 1 0 1 1\n\
            worst 2 1 1 1 4 0\n\
            worst 3 1 0 0 3 0\n\
            worst 3 1 0 1 1 1\n\
            worst 3 1 1 0 1 1\n\
            worst 3 1 1 1 4 0\n",
        ),
        (
            "3\n",
            "scale penalty join\n\
            scale joined\n\
            sum 0\n\
            worst 0\n\
            scale first second floor own own cell cost\n\
            sum refusal 5 list 2 place 0\n\
            worst refusal 5 list 2 place 0\n\
            scale sweep floor entry candidate own open\n",
        ),
        (
            "2\n2\n1\n",
            "scale penalty join\n\
            sum 2 2\n\
            sum 1 2\n\
            worst 2 2\n\
            worst 1 2\n\
            scale joined\n\
            sum 2\n\
            worst 2\n\
            scale first second floor own own cell cost\n\
            sum refusal 5 list 1 place 0\n\
            worst refusal 5 list 1 place 0\n\
            scale sweep floor entry candidate own open\n",
        ),
        ("", "refusal line\n20 1\n"),
        ("10", "refusal line\n20 1\n"),
        ("ten\n", "refusal line\n20 1\n"),
        ("10000000\n", "refusal line\n20 1\n"),
        ("0\n", "refusal line\n1 1\n"),
        ("1000001\nx\n", "refusal line\n1 1\n"),
        ("10\n3\n11\nx\n", "refusal line\n5 3\n"),
        ("10\n3\n04\n11\n", "refusal line\n20 3\n"),
        ("10\n3\n4", "refusal line\n20 3\n"),
        ("10\n\n", "refusal line\n20 2\n"),
        ("10\n3 4\n", "refusal line\n20 2\n"),
    ];

    #[test]
    fn reports_and_refusals(rt: HostRuntime) -> Result<(), Fail> {
        for (text, output) in CASES {
            let answered = answer(rt.alloc(), text.as_bytes())?;
            assert_eq!(rt; answered.as_str(), output, "{}", text);
        }
        Ok(())
    }

    // 30,720 bytes are read, and one more is refused.
    #[test]
    fn the_longest_text(rt: HostRuntime) -> Result<(), Fail> {
        let mut text = String::new(rt.alloc());
        for _ in 0..15_360 {
            text.push_str("1\n")?;
        }
        let answered = answer(rt.alloc(), text.as_bytes())?;
        assert!(rt; answered.as_str().starts_with("scale penalty join\n"));
        text.push_str("1")?;
        let refused = answer(rt.alloc(), text.as_bytes())?;
        assert_eq!(rt; refused.as_str(), "refusal line\n18 0\n");
        Ok(())
    }
}
