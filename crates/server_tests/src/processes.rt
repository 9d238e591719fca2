//! Three processes that serve nodes: packets in queues, clients in lists, a clock that is told, and records in files.

ghost use Rattle.std.specs.Prelude.{◌<◌};
ghost use Rattle.serving.specs.Seen.{server_of};
ghost use Rattle.serving.specs.Serving.{ServesOver};

use crate::fakes::{Counter, Post};
use life::Life;
use record_files::RecordFile;
use serving::{Came, Desk, Horizon, Network, Server, TurnFault};
use stable::Stable;
use std::alloc::{AllocError, Global};
use std::test::Fail;
use std::{fs, mem};
use wire::{NodeId, Nodes};

/// A process and what it is joined to.
#[derive(Drop)]
struct Process {
    server: Server<RecordFile>,
    post: Post,
    counter: Counter,
    // How many turns said that more may have come.
    busy: u64,
}

impl Process {
    /// A process that finds its records in the file.
    fn start(
        rt: &HostRuntime,
        path: &str,
        id: NodeId,
        nodes: Nodes,
        now: u64,
    ) -> Result<Process, Fail> {
        let alloc = rt.alloc();
        let life = Life::start(alloc, RecordFile::open(rt, path)?, id, nodes);
        Ok(Process {
            server: Server::new(alloc, life, id, nodes, Horizon::none(), now),
            post: Post::new(alloc),
            counter: Counter::new(alloc),
            busy: 0,
        })
    }

    /// One turn. The post and the counter record all that passes in it, and that is what a process may let out, of what came.
    fn turn(&mut self, alloc: Global, now: u64) -> Result<(), TurnFault>
        ensures { ServesOver (⟦<RecordFile as Stable>⟧) ⟦<Post as Network>⟧.tape ⟦<Post as Network>⟧.Tells ⟦<Counter as Desk>⟧.tape
            ⟦<Counter as Desk>⟧.Tells (server_of self.old.server) self.old.post self.old.counter (server_of self.new.server)
            self.new.post self.new.counter }
    {
        let is_busy = self
            .server
            .turn(alloc, &mut self.post, &mut self.counter, now)?;
        if is_busy {
            self.busy = self.busy.saturating_add(1);
        }
        Ok(())
    }
}

/// Three nodes, and which of their processes are there.
#[derive(Drop)]
pub(crate) struct Trio {
    folder: &'static str,
    nodes: Nodes,
    processes: Vec<Option<Process>>,
    now: u64,
}

impl Trio {
    /// All three begin, over an empty folder of this name.
    pub(crate) fn start(rt: &HostRuntime, folder: &'static str) -> Result<Trio, Fail> {
        fs::create_dir(rt, folder)?;
        let mut trio = Trio {
            folder,
            nodes: Nodes::new(3).unwrap(),
            processes: Vec::new(rt.alloc()),
            now: 0,
        };
        for number in 0..3 {
            let process = trio.process(rt, number)?;
            trio.processes.push(Some(process))?;
        }
        Ok(trio)
    }

    // A process that serves this node.
    fn process(&self, rt: &HostRuntime, number: u8) -> Result<Process, Fail>
        requires { number < 7 }
    {
        let folder = self.folder;
        let path = format!(in rt.alloc(); "{folder}/node{number}.db")?;
        let id = NodeId::new(number).unwrap();
        Process::start(rt, path.as_str(), id, self.nodes, self.now)
    }

    /// The node's process ends as it stands.
    pub(crate) fn stop(&mut self, number: usize) {
        if let Some(process) = self.processes.get_mut(number) {
            *process = None;
        }
    }

    /// Another one begins over its records.
    pub(crate) fn begin_again(&mut self, rt: &HostRuntime, number: u8) -> Result<(), Fail>
        requires { number < 7 }
    {
        let begun = self.process(rt, number)?;
        if let Some(process) = self.processes.get_mut(usize::from(number)) {
            *process = Some(begun);
        }
        Ok(())
    }

    // A client of the node does this.
    fn comes(&mut self, number: usize, came: Came) -> Result<(), AllocError> {
        if let Some(Some(process)) = self.processes.get_mut(number) {
            process.counter.came.push_back(came)?;
        }
        Ok(())
    }

    /// A client of the node writes a line.
    pub(crate) fn write(
        &mut self,
        alloc: Global,
        number: usize,
        connection: u64,
        line: &str,
    ) -> Result<(), AllocError> {
        let text = Vec::from_slice(alloc, line.as_bytes())?;
        self.comes(number, Came::Line { connection, text })
    }

    /// Lets so many milliseconds pass, ten at a time. What is sent comes ten later.
    pub(crate) fn pass(&mut self, alloc: Global, milliseconds: u64) -> Result<(), TurnFault> {
        for _ in 0..milliseconds / 10 {
            self.now = self.now.saturating_add(10);
            let mut sent = Vec::new(alloc);
            for process in self.processes.iter_mut() {
                if let Some(process) = process {
                    process.turn(alloc, self.now)?;
                    let packets = mem::replace(&mut process.post.sent, Vec::new(alloc));
                    sent.push(packets)?;
                }
            }
            for packets in sent {
                self.deliver(packets)?;
            }
        }
        Ok(())
    }

    // The packets come to those processes that are there.
    fn deliver(&mut self, packets: Vec<(u8, Vec<u8>)>) -> Result<(), AllocError> {
        for (to, packet) in packets {
            if let Some(Some(process)) = self.processes.get_mut(usize::from(to)) {
                process.post.came.push_back(packet)?;
            }
        }
        Ok(())
    }

    /// What the connection of the node was told.
    pub(crate) fn told(
        &self,
        alloc: Global,
        number: usize,
        connection: u64,
    ) -> Result<Vec<u8>, AllocError> {
        match self.processes.get(number) {
            Some(Some(process)) => process.counter.told(alloc, connection),
            _ => Ok(Vec::new(alloc)),
        }
    }

    /// How many turns of the node's process said that more may have come.
    pub(crate) fn busy(&self, number: usize) -> u64 {
        match self.processes.get(number) {
            Some(Some(process)) => process.busy,
            _ => 0,
        }
    }

    /// How many things that clients did the node's process has not heard yet.
    pub(crate) fn unread(&self, number: usize) -> usize {
        match self.processes.get(number) {
            Some(Some(process)) => process.counter.came.len(),
            _ => 0,
        }
    }

    /// How many campaigns there were.
    pub(crate) fn campaigns(&self) -> u64 {
        let mut all: u64 = 0;
        for process in self.processes.iter() {
            if let Some(process) = process {
                all = all.saturating_add(process.server.timing().campaigns());
            }
        }
        all
    }
}
