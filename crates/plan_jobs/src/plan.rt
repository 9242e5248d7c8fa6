// The job that plans: it judges the lines up to the format, reads the rest, and owes the planned text at the end.
ghost use Rattle.std.specs.Prelude.{◌≡◌, [], true, IfOk};
ghost use Rattle.line_job.specs.Ends.{source_seen, sink_seen};
ghost use Rattle.line_job.specs.Refusal.{IfRefused};
ghost use Rattle.line_job.specs.Told.{RunsTold};
ghost use Rattle.header_lines.specs.Message.{cause_message};
ghost use Rattle.header_lines.specs.Heading.{first_next};
ghost use Rattle.header_lines.specs.Read.{headed_of};
ghost use Rattle.plan_jobs.specs.Plan.{PlanStage, heading_next, after, plan_rules, judges, Keeps, Refuses};
ghost use Rattle.plan_jobs.specs.Written.{PlansAll};
ghost use Rattle.plan_jobs.specs.Inner.State.{stage_of};
ghost use Rattle.plan_jobs.specs.Inner.PlanClear.{plan_clear};

use crate::push::push_line;
use edge_io::{Sink, Source};
use header_lines::{Fields, Headed, Heading, LineCause, read_format, read_heading};
use line_job::{LineJob, Refusal, run_told};
use row_plan::RowPlan;
use std::alloc::Global;
use std::mem;

/// Which line comes next, and what those before it said.
#[derive(Drop)]
enum State {
    Heading(Heading),
    Format(Fields),
    Planned(RowPlan),
}

/// Where the job stands after a line in front of the format line.
fn after(headed: Headed) -> State
    ensures { stage_of result ≡ after (headed_of headed) }
{
    match headed {
        Headed::More(heading) => State::Heading(heading),
        Headed::Format(fields) => State::Format(fields),
    }
}

/// Reads the header line that comes next.
fn read_header(
    alloc: Global,
    state: State,
    number: u64,
    line: &str,
) -> Result<State, Refusal<LineCause>>
    requires { judges (stage_of state) ≡ true }
    ensures kept { IfOk result (λ next. Keeps (stage_of state) number line.now [] (stage_of next)) }
    ensures refused { IfRefused result (Refuses (stage_of state) number line.now) }
{
    match state {
        State::Heading(heading) => Ok(after(read_heading(alloc, heading, number, line)?)),
        State::Format(fields) => {
            let plan = read_format(alloc, number, &fields.kinds, line)?;
            Ok(State::Planned(plan))
        }
        State::Planned(plan) => Ok(State::Planned(plan)),
    }
}

/// The job that plans.
#[derive(Drop)]
struct Plan {
    state: State,
}

impl LineJob for Plan {
    type Why = LineCause;

    ghost Stage = { PlanStage };

    ghost stage = { λ job. stage_of job.state };

    ghost rules = { plan_rules };

    ghost IsSound = { λ job. Unit {0} };

    fn judges(&self) -> bool {
        match &self.state {
            State::Heading(_) => true,
            State::Format(_) => true,
            State::Planned(_) => false,
        }
    }

    fn line(
        &mut self,
        alloc: Global,
        number: u64,
        line: &str,
        _out: &mut String,
    ) -> Result<(), Refusal<LineCause>> {
        let state = mem::replace(&mut self.state, State::Heading(Heading::First));
        self.state = read_header(alloc, state, number, line)?;
        Ok(())
    }

    fn end(
        &self,
        _alloc: Global,
        _before: u64,
        out: &mut String,
    ) -> Result<(), Refusal<LineCause>> {
        match &self.state {
            State::Heading(heading) => Err(Refusal::Line(LineCause::Header {
                line: heading.number(),
            })),
            State::Format(fields) => Err(Refusal::Line(LineCause::Header {
                line: fields.version.number_in(2),
            })),
            State::Planned(plan) => push_line(out, plan.format_text()),
        }
    }

    ghost clear = { plan_clear };
}

/// Plans the format over the kinds in front of it, and writes the planned text at the end of the input, which is read and not
/// judged behind the format. Answers the exit status, and tells a refusal on the error output.
pub fn run_plan<S: Source, K: Sink, E: Sink>(
    alloc: Global,
    input: &mut S,
    output: &mut K,
    errors: &mut E,
    limit: u64,
) -> u8
    // Status 0: all was read, and the planned text of the format was written.
    ensures planned { result ≡ 0 → PlansAll (source_seen S.supply input.old input.new) (sink_seen K.held K.faults output.old output.new) }

    // Every status is that of a result of the job, and its message is told.
    ensures told { RunsTold plan_rules (heading_next first_next) cause_message limit (source_seen S.supply input.old input.new) (sink_seen K.held K.faults output.old output.new) (sink_seen E.held E.faults errors.old errors.new) result }

    // Success tells nothing.
    ensures quiet { result ≡ 0 → errors.new ≡ errors.old }
{
    let mut job = Plan {
        state: State::Heading(Heading::First),
    };
    run_told(alloc, &mut job, input, output, errors, limit)
}
