//! What a schedule submits and asks.

ghost use Rattle.std.specs.Prelude.{◌≡◌, ◌++◌, ◌∷◌, [], cond, flat_map, OnOk, IfOk};
ghost use Rattle.audit.specs.Audits.{is_short, requests_in, requests_of_event, questions_in, questions_of_event};
ghost use Rattle.schedule.specs.declared.schedule.ScheduleLine.{ScheduleLine as ALine};

use events::Event;
use schedule::{Action, Schedule};
use sessions::{Request, Submission};
use std::alloc::{AllocError, Global};
use verdicts::Question;

/// What is asked of the nodes of a run.
#[derive(Drop)]
pub(crate) struct Demands {
    pub requests: Vec<Request>,
    pub questions: Vec<Question>,
}

/// What the lines of the schedule want, each in their order.
pub(crate) fn demands_of(alloc: Global, schedule: Schedule) -> Result<Demands, AllocError>
    ensures requests { IfOk result (λ demands.
        demands.requests.items ≡ flat_map (λ (line : ALine). requests_in line.action) schedule.lines) }
    ensures questions { IfOk result (λ demands.
        demands.questions.items ≡ flat_map (λ (line : ALine). questions_in line.action) schedule.lines) }
{
    let lines = schedule.into_lines();
    let mut demands = Demands {
        requests: Vec::new(alloc),
        questions: Vec::new(alloc),
    };
    for line in &lines {
        add(&mut demands, &line.action)?;
    }
    Ok(demands)
}

/// Adds what a line wants.
fn add(demands: &mut Demands, action: &Action) -> Result<(), AllocError>
    ensures requests { OnOk result (demands.new.requests.items ≡ demands.old.requests.items ++ requests_in action.now) }
    ensures questions { OnOk result (demands.new.questions.items ≡ demands.old.questions.items ++ questions_in action.now) }
{
    match action {
        Action::Step(event) => add_event(demands, event),
        Action::Flush | Action::Round { .. } => Ok(()),
    }
}

/// Adds what an event wants.
fn add_event(demands: &mut Demands, event: &Event) -> Result<(), AllocError>
    ensures requests { OnOk result (demands.new.requests.items ≡ demands.old.requests.items ++ requests_of_event event.now) }
    ensures questions { OnOk result (demands.new.questions.items ≡ demands.old.questions.items ++ questions_of_event event.now) }
{
    match event {
        Event::Submit {
            node: _,
            submission,
        } => add_request(&mut demands.requests, submission),
        Event::Query(node, query) => {
            demands.questions.push(Question {
                node: node.value(),
                query: *query,
            })?;
            Ok(())
        }
        _ => Ok(()),
    }
}

/// Adds the request, where there is one: a node refuses a put of too many points.
#[tactic(auto, using(crate::proofs::DemandLemmas::short_is_taken, crate::proofs::DemandLemmas::long_is_not))]
fn add_request(requests: &mut Vec<Request>, submission: &Submission) -> Result<(), AllocError>
    ensures { OnOk result (requests.new.items ≡ requests.old.items ++ cond (is_short submission.now.op) (submission.now ∷ []) []) }
{
    let op = submission.op.clone()?;
    match Request::new(submission.client, submission.number, op) {
        Ok(request) => {
            requests.push(request)?;
            Ok(())
        }
        Err(_) => Ok(()),
    }
}
