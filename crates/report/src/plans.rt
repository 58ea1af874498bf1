// What is written for a plan that the program has as data.
ghost use Rattle.std.specs.Prelude.{◌≡◌, ◌≤◌, ◌++◌, Ok, Err, string_bytes, IfOk, MatchResult, OnOk};
ghost use Rattle.plan.specs.Plans.{at_ceiling};
ghost use Rattle.report.specs.PlanReports.{paid_by, named_tuning, paid_numbers, paid_line};
ghost use Rattle.report.specs.PlanReports.{tuning_lines, fault_line, plan_lines, plan_report};
ghost use Rattle.report.specs.PlanReports.{sample_answer, sample_after};

use plan::Plan;
use plan::records::PairRecord;
use plan::refusals::FillFault;
use scale::Scale;
use scale::sum::SumScale;
use scale::worst::WorstScale;
use std::alloc::AllocError;

// What a tuning of the plan pays, and what that comes to.
#[derive(Clone, Copy, Debug, PartialEq, Eq)]
pub struct Paid {
    pub floor: u32,
    pub first: u32,
    pub second: u32,
    pub cell: u32,
    pub cost: u32,
}

// The two candidates stay two numbers, as the definitions name them, and the scale's name is a word
// of the report, which a scale does not carry.
fn pay<S: Scale>(plan: &Plan<S>, a: usize, b: usize) -> Option<Paid>
    ensures is_what_it_pays { result
        ≡ paid_by (at_ceiling S.join plan.now) plan.now.tables a b }
{
    Some(Paid {
        floor: plan.floor(),
        first: plan.own(0, a)?,
        second: plan.own(1, b)?,
        cell: plan.cell(0, a, b)?,
        cost: plan.cost(&[a, b]).ok()?,
    })
}

// The text and the name stay parameters: `Lines { out, name }.push_paid(..)` would be no shorter.
// What a line says is a proved fact, of which a `fmt` of the values would promise nothing. Such
// bodies look alike; the text of each is its meaning.
fn push_tuning_name(out: &mut String, name: &str, a: usize, b: usize) -> Result<(), AllocError>
    ensures names_it { OnOk result (string_bytes out.new
        ≡ string_bytes out.old ++ named_tuning name.now a b) }
{
    write!(out, "{name} {a} {b}")
}

fn push_paid(out: &mut String, paid: Paid) -> Result<(), AllocError>
    ensures lists_the_numbers { OnOk result (string_bytes out.new
        ≡ string_bytes out.old ++ paid_numbers paid) }
{
    let Paid {
        floor,
        first,
        second,
        cell,
        cost,
    } = paid;
    writeln!(out, " {floor} {first} {second} {cell} {cost}")
}

fn push_fault(out: &mut String, name: &str, fault: FillFault) -> Result<(), AllocError>
    ensures adds_the_line { OnOk result (string_bytes out.new
        ≡ string_bytes out.old ++ fault_line name.now fault) }
{
    let number = fault.refusal.number();
    let list = fault.list.number();
    let place = fault.place;
    writeln!(out, "{name} refusal {number} list {list} place {place}")
}

fn push_tuning<S: Scale>(
    out: &mut String,
    name: &str,
    plan: &Plan<S>,
    a: usize,
    b: usize,
) -> Result<(), AllocError>
    ensures adds_its_line { OnOk result (string_bytes out.new
        ≡ string_bytes out.old ++ paid_line name.now a b
        (paid_by (at_ceiling S.join plan.now) plan.now.tables a b)) }
{
    match pay(plan, a, b) {
        Some(paid) => {
            push_tuning_name(out, name, a, b)?;
            push_paid(out, paid)
        }
        None => Ok(()),
    }
}

// A line for each of the four tunings.
fn push_tunings<S: Scale>(out: &mut String, name: &str, plan: &Plan<S>) -> Result<(), AllocError>
    ensures adds_the_lines { OnOk result (string_bytes out.new
        ≡ tuning_lines name.now (at_ceiling S.join plan.now)
        plan.now.tables (string_bytes out.old)) }
{
    for (a, b) in [(0, 0), (0, 1), (1, 0), (1, 1)] {
        push_tuning(out, name, plan, a, b)?;
    }
    Ok(())
}

// The plan, filled on a scale at a ceiling.
pub(crate) fn filled_plan<S: Scale + Drop>(scale: S, ceiling: u32) -> Result<Plan<S>, FillFault>
    ensures answers { MatchResult result
        (λ plan. Ok tt ≡ sample_answer ceiling)
        (λ fault. Err fault ≡ sample_answer ceiling) }
    ensures is_filled { IfOk result (λ plan. plan.tables ≡ sample_after ceiling) }
    ensures is_on_the_scale { IfOk result (λ plan. plan.scale ≡ scale) }
    ensures its_bound_is_at_least_four { IfOk result (λ plan. 4 ≤ plan.tables.limits.bound) }
{
    let pairs = [PairRecord {
        entry: 0,
        candidate: 1,
        other: 1,
        choice: 1,
        points: 4,
    }];
    let mut plan = Plan::new(scale);
    plan.fill(ceiling, &[2, 2], &[3, 1, 1, 0], &pairs)?;
    Ok(plan)
}

// Its tunings, or the fault.
fn push_plan<S: Scale + Drop>(
    out: &mut String,
    name: &str,
    scale: S,
    ceiling: u32,
) -> Result<(), AllocError>
    ensures adds_the_lines { OnOk result (string_bytes out.new
        ≡ plan_lines name.now (S.join scale) ceiling (string_bytes out.old)) }
{
    match filled_plan(scale, ceiling) {
        Ok(plan) => push_tunings(out, name, &plan),
        Err(fault) => push_fault(out, name, fault),
    }
}

// The plan on both scales.
pub(crate) fn push_plans(out: &mut String, ceiling: u32) -> Result<(), AllocError>
    ensures adds_the_report { OnOk result (string_bytes out.new
        ≡ plan_report ceiling (string_bytes out.old)) }
{
    out.push_str("scale first second floor own own cell cost\n")?;
    push_plan(out, "sum", SumScale, ceiling)?;
    push_plan(out, "worst", WorstScale, ceiling)
}
