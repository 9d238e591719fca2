//! Timed loops: one work, done so many times, and the sum of its answers.
//!
//! `task` parses the words, `scene` makes a moving point and what is asked of it. `numbers`, `queries`, `operations`,
//! `documents`, `execution` and `messages` turn answers into numbers, and `rounds` adds these up. `learners`, `acceptors`,
//! `leader`, `indexes` and `deliveries` do so for the parts of a node, with `requests`, and `parts` adds these up. `texts` has
//! the snapshot text of a machine, and `logs` the votes in a storage in memory.
//!
//! No clause says what a loop answers: the stored run compares the sums. Each is printed, so that no loop can be left out.

mod acceptors;
mod deliveries;
mod documents;
mod execution;
mod fleet;
mod indexes;
mod leader;
mod learners;
mod logs;
mod messages;
mod numbers;
mod operations;
mod parts;
mod queries;
mod requests;
mod rounds;
mod scene;
mod task;
mod texts;

ghost use Rattle.std.specs.Prelude.{IfErr};
ghost use Rattle.conformance.specs.Faults.{IsUntimed};

use crate::fault::Fault;
use logs::log_total;
use parts::part_total;
use rounds::scene_total;
use scene::Scene;
use std::alloc::Global;
pub use task::task_of;
use task::{Task, Work};
use texts::text_total;

/// The sum of what the task's rounds answer, in 64 bits.
pub fn sum(alloc: Global, task: Task) -> Result<u64, Fault>
    ensures { IfErr result IsUntimed }
{
    match task.work {
        Work::Scene(work) => {
            let scene = Scene::new(alloc, task.size)?;
            scene_total(alloc, work, &scene, task.rounds)
        }
        Work::Part(work) => part_total(alloc, work, task.size, task.rounds),
        Work::Text(work) => text_total(alloc, work, task.size, task.rounds),
        Work::Log(work) => log_total(alloc, work, task.size, task.rounds),
    }
}
