//! Tests of whole runs and of the program's parts: of `world_model`, `world`, `cluster`, `udp_transport`, `schedule`, `replay` and `commands`; of
//! `args`, `commands` and `cli`; and of `story`, `run_map` and `audit`.

mod audits;
mod checkpoints;
mod checks;
mod clusters;
mod failures;
mod folders;
mod loopbacks;
mod maps;
mod program;
mod schedules;
mod stories;
mod streams;
mod transcripts;
mod words;
mod worlds;
