// What is written for a row of penalties.
ghost use Rattle.std.specs.Prelude.{◌≡◌, ◌++◌, IfOk, string_bytes, OnOk};
ghost use Rattle.report.specs.RowReports.{running_line, running_lines, joined_lines, report_of};

use scale::Scale;
use scale::joined::joined_penalty;
use scale::sum::SumScale;
use scale::worst::WorstScale;
use std::alloc::{AllocError, Global};

// Room for the heading and the longest line of the sum scale, in bytes. The text doubles it as it
// grows.
const FIRST_ROOM: usize = 39;

// A line for one penalty.
// The text and the name stay parameters: `Lines { out, name }.push(..)` would be no shorter. What
// the line says is a proved fact, of which a `fmt` of the values would promise nothing. Such bodies
// look alike; the text of each is its meaning.
fn push_running_line(
    out: &mut String,
    name: &str,
    penalty: u32,
    total: u32,
) -> Result<(), AllocError>
    ensures adds_the_line { OnOk result (string_bytes out.new
        ≡ string_bytes out.old ++ running_line name.now penalty total) }
{
    writeln!(out, "{name} {penalty} {total}")
}

// A line for each penalty: the scale's name, the penalty, and the join of all so far.
fn push_running_lines<S: Scale>(
    out: &mut String,
    name: &str,
    scale: &S,
    ceiling: u32,
    penalties: &[u32],
) -> Result<(), AllocError>
    ensures adds_the_lines { OnOk result (string_bytes out.new
        ≡ string_bytes out.old
        ++ running_lines name.now (S.join scale.now ceiling) 0 penalties.now) }
{
    let mut total: u32 = 0;
    for penalty in penalties {
        total = scale.join(ceiling, total, *penalty);
        push_running_line(out, name, *penalty, total)?;
    }
    Ok(())
}

// The joined penalty on each scale, by `write!` for the same reason.
fn push_joined_lines(out: &mut String, sum: u32, worst: u32) -> Result<(), AllocError>
    ensures adds_the_lines { OnOk result (string_bytes out.new
        ≡ string_bytes out.old ++ joined_lines sum worst) }
{
    writeln!(out, "scale joined\nsum {sum}\nworst {worst}")
}

// The running joins and the joined penalty on both scales.
pub(crate) fn row_report(
    heap: Global,
    ceiling: u32,
    penalties: &[u32],
) -> Result<String, AllocError>
    ensures is_the_report { IfOk result (λ s. string_bytes s
        ≡ report_of (record { ceiling = ceiling; penalties = penalties.now })) }
{
    let mut out = String::with_capacity(heap, FIRST_ROOM)?;
    out.push_str("scale penalty join\n")?;
    push_running_lines(&mut out, "sum", &SumScale, ceiling, penalties)?;
    push_running_lines(&mut out, "worst", &WorstScale, ceiling, penalties)?;
    let sum = joined_penalty(&SumScale, ceiling, penalties);
    let worst = joined_penalty(&WorstScale, ceiling, penalties);
    push_joined_lines(&mut out, sum, worst)?;
    Ok(out)
}
