// What is written for the plan while it is settled, sweep by sweep.
ghost use Rattle.std.specs.Prelude.{◌≡◌, ◌≤◌, ◌++◌, string_bytes, IfOk, OnOk};
ghost use Rattle.plan.specs.Settling.{unchanged};
ghost use Rattle.report.specs.SweepReports.{candidate_line, candidate_lines, swept_tables};
ghost use Rattle.report.specs.SweepReports.{sweep_lines, settled_lines, settling_lines};
ghost use Rattle.report.specs.SweepReports.{settling_report};

use crate::plans::filled_plan;
use plan::Plan;
use scale::Scale;
use scale::sum::SumScale;
use scale::worst::WorstScale;
use std::alloc::AllocError;

// The bound that the plan settles under: low enough that sweeps close candidates.
const BOUND: u32 = 3;

// The most sweeps that are made.
const MOST_SWEEPS: u32 = 16;

// A candidate's line: what the plan holds of it after a number of sweeps.
fn push_candidate<S>(
    out: &mut String,
    name: &str,
    made: u32,
    plan: &Plan<S>,
    entry: usize,
    candidate: usize,
) -> Result<(), AllocError>
    ensures adds_its_line { OnOk result (string_bytes out.new
        ≡ string_bytes out.old ++ candidate_line name.now made plan.now.tables entry candidate) }
{
    match (plan.own(entry, candidate), plan.is_open(entry, candidate)) {
        (Some(own), Some(open)) => {
            let floor = plan.floor();
            let mark = u32::from(open);
            writeln!(
                out,
                "{name} {made} {floor} {entry} {candidate} {own} {mark}"
            )
        }
        _ => Ok(()),
    }
}

// A line for each of the four candidates.
fn push_candidates<S>(
    out: &mut String,
    name: &str,
    made: u32,
    plan: &Plan<S>,
) -> Result<(), AllocError>
    ensures adds_the_lines { OnOk result (string_bytes out.new
        ≡ candidate_lines name.now made plan.now.tables (string_bytes out.old)) }
{
    for (entry, candidate) in [(0, 0), (0, 1), (1, 0), (1, 1)] {
        push_candidate(out, name, made, plan, entry, candidate)?;
    }
    Ok(())
}

// One sweep, and then the lines; whether it changed nothing.
fn push_sweep<S: Scale>(
    out: &mut String,
    name: &str,
    made: u32,
    plan: &mut Plan<S>,
) -> Result<bool, AllocError>
    ensures adds_the_lines { OnOk result (string_bytes out.new
        ≡ candidate_lines name.now made plan.new.tables (string_bytes out.old)) }
    ensures says_whether_it_is_stable { IfOk result (λ is_stable. is_stable
        ≡ unchanged plan.old.tables plan.new.tables) }
    ensures sweeps { plan.new.tables
        ≡ swept_tables (S.join plan.old.scale) (S.rest plan.old.scale) plan.old.tables }
    ensures keeps_its_scale { plan.new.scale ≡ plan.old.scale }
{
    // Proved to be accepted, since one sweep is not too many.
    let settled = plan.settle(1).unwrap();
    push_candidates(out, name, made, plan)?;
    Ok(settled.stable)
}

// Up to a number of sweeps, until one changes nothing, with the lines after each.
fn push_sweeps<S: Scale>(
    out: &mut String,
    name: &str,
    sweeps: u32,
    plan: &mut Plan<S>,
) -> Result<(), AllocError>
    ensures adds_the_lines { OnOk result (string_bytes out.new
        ≡ sweep_lines name.now (S.join plan.old.scale) (S.rest plan.old.scale) sweeps 0
        plan.old.tables (string_bytes out.old)) }
{
    for made in 0..sweeps {
        if push_sweep(out, name, made + 1, plan)? {
            return Ok(());
        }
    }
    Ok(())
}

// A filled plan before the sweeps and after each.
fn push_settled<S: Scale>(
    out: &mut String,
    name: &str,
    plan: &mut Plan<S>,
) -> Result<(), AllocError>
    requires can_be_lowered { 3 ≤ plan.old.tables.limits.bound }
    ensures adds_the_lines { OnOk result (string_bytes out.new
        ≡ settled_lines name.now (S.join plan.old.scale) (S.rest plan.old.scale) plan.old.tables
        (string_bytes out.old)) }
{
    // Proved to be accepted, since the bound is 3 or more.
    plan.lower(BOUND).unwrap();
    push_candidates(out, name, 0, plan)?;
    push_sweeps(out, name, MOST_SWEEPS, plan)
}

// The plan, filled on a scale and settled; nothing where it does not fill.
fn push_settling<S: Scale + Drop>(
    out: &mut String,
    name: &str,
    scale: S,
    ceiling: u32,
) -> Result<(), AllocError>
    ensures adds_the_lines { OnOk result (string_bytes out.new
        ≡ settling_lines name.now (S.join scale) (S.rest scale) ceiling (string_bytes out.old)) }
{
    match filled_plan(scale, ceiling) {
        Ok(mut plan) => push_settled(out, name, &mut plan),
        Err(_) => Ok(()),
    }
}

// The plan settled on both scales.
pub(crate) fn push_settlings(out: &mut String, ceiling: u32) -> Result<(), AllocError>
    ensures adds_the_report { OnOk result (string_bytes out.new
        ≡ settling_report ceiling (string_bytes out.old)) }
{
    out.push_str("scale sweep floor entry candidate own open\n")?;
    push_settling(out, "sum", SumScale, ceiling)?;
    push_settling(out, "worst", WorstScale, ceiling)
}
