//! The process: its node, its sockets and its clock.

use crate::addresses::{address_of, addresses_in};
use crate::identity::Identity;
use crate::key::read_run;
use crate::lines::Lines;
use crate::links::Links;
use crate::options::Options;
use crate::place::{horizon_of, place_of};
use crate::refusal::Refusal;
use crate::stop::Stop;
use crate::tokens::{CLIENTS, FIRST_CLIENT, FIRST_COMER, FIRST_LINK, PEERS, Source, source_of};
use life::Life;
use mio::net::TcpListener;
use mio::{Events, Interest, Poll, Token};
use record_files::RecordFile;
use serving::Server;
use stable::Stable;
use std::io;
use std::time::{Duration, Instant};
use wire::{NodeId, Nodes};

/// So many events are looked at between two turns at most.
const MOST_EVENTS: usize = 128;

/// So many nodes at most are told of after a turn.
const MOST_NEWS: usize = 7;

/// The process, until it is killed or can't go on.
#[derive(Drop)]
struct Daemon {
    server: Server<RecordFile>,
    links: Links,
    lines: Lines,
    poll: Poll,
    peers: TcpListener,
    clients: TcpListener,
    // How many campaigns were told of.
    campaigns: u64,
    // More may have come than the last turn took.
    is_more: bool,
}

/// Serves the node that the words name, until it can't go on.
pub fn serve(rt: &HostRuntime, options: &Options<'_>) -> Result<(), Stop> {
    let begun = Instant::now(rt)?;
    let mut daemon = begin(rt, options)?;
    let mut events = Events::with_capacity(rt.alloc(), MOST_EVENTS)?;
    for _ in 0..u64::MAX {
        daemon.wait(rt, begun, &mut events)?;
        daemon.turn(rt, now(rt, begun)?)?;
    }
    Ok(())
}

/// How many milliseconds the process has been there.
fn now(rt: &HostRuntime, begun: Instant) -> io::Result<u64> {
    let elapsed = begun.elapsed(rt)?;
    let millis = u64::from(elapsed.subsec_millis());
    Ok(
        elapsed
            .as_secs()
            .saturating_mul(1000)
            .saturating_add(millis),
    )
}

/// All that the words name, opened.
fn begin(rt: &HostRuntime, options: &Options<'_>) -> Result<Daemon, Stop> {
    let alloc = rt.alloc();
    let addresses = addresses_in(rt, options.peers)?;
    let (id, nodes) = place_of(options.id, addresses.len())?;
    let (run, name) = read_run(rt, options.key)?;
    let Some(own) = addresses.get(usize::from(id.value())) else {
        return Err(Stop::Refused(Refusal::Id));
    };
    let clients = TcpListener::bind(rt, address_of(rt, options.listen)?)?;
    let peers = TcpListener::bind(rt, *own)?;
    let identity = Identity::see(rt, options.db, &name, id, nodes, options.is_new)?;
    let server = open_server(rt, options.db, id, nodes)?;
    identity.note_served(rt)?;
    let mut daemon = Daemon {
        server,
        links: Links::new(alloc, run, id, addresses.as_slice())?,
        lines: Lines::new(alloc)?,
        poll: Poll::new(rt)?,
        peers,
        clients,
        campaigns: 0,
        is_more: true,
    };
    daemon.listen()?;
    Ok(daemon)
}

/// The node over the records of this database.
fn open_server(
    rt: &HostRuntime,
    db: &str,
    id: NodeId,
    nodes: Nodes,
) -> Result<Server<RecordFile>, Stop> {
    let alloc = rt.alloc();
    let mut records = RecordFile::open(rt, db)?;
    let keys = records.keys(alloc)?;
    let life = Life::start(alloc, records, id, nodes);
    if !life.node().is_up() {
        return Err(Stop::Refused(Refusal::Damaged));
    }
    let _ = eprintln!(rt;
        "mfpxd: start: node {} of {} over {} records",
        id.value(),
        nodes.count(),
        keys.len()
    );
    let horizon = horizon_of(keys.as_slice());
    Ok(Server::new(alloc, life, id, nodes, horizon, 0))
}

impl Daemon {
    // Has the poll report who comes.
    fn listen(&mut self) -> io::Result<()> {
        let registry = self.poll.registry();
        registry.register(&mut self.peers, Token(PEERS), Interest::READABLE)?;
        registry.register(&mut self.clients, Token(CLIENTS), Interest::READABLE)
    }

    // Waits until something is new or due.
    fn wait(&mut self, rt: &HostRuntime, begun: Instant, events: &mut Events) -> io::Result<()> {
        let now = now(rt, begun)?;
        let left = if self.is_more {
            0
        } else {
            self.server.left(now).min(self.links.left(now))
        };
        self.poll.poll(events, Some(Duration::from_millis(left)))?;
        for event in events.iter() {
            let Token(token) = event.token();
            self.wake(rt, token);
        }
        Ok(())
    }

    // Something is new of this token.
    fn wake(&mut self, rt: &HostRuntime, token: usize) {
        let alloc = rt.alloc();
        match source_of(token) {
            Some(Source::Peers) => self
                .links
                .accept(alloc, &self.poll, &self.peers, FIRST_COMER),
            Some(Source::Clients) => self
                .lines
                .accept(alloc, &self.poll, &self.clients, FIRST_CLIENT),
            Some(Source::Link(node)) => self.links.wake_link(node),
            Some(Source::Comer(place)) => self.links.wake_comer(place),
            Some(Source::Client(place)) => self.lines.wake(place),
            None => {}
        }
    }

    // Takes what has come, and writes what comes of it.
    fn turn(&mut self, rt: &HostRuntime, now: u64) -> Result<(), Stop> {
        self.links.open(rt, &self.poll, FIRST_LINK, now);
        self.is_more = self
            .server
            .turn(rt.alloc(), &mut self.links, &mut self.lines, now)?;
        self.links.flush();
        self.lines.flush()?;
        self.tell_of_peers(rt);
        self.tell_of_campaigns(rt);
        Ok(())
    }

    // Which nodes were found and lost.
    fn tell_of_peers(&mut self, rt: &HostRuntime) {
        for _ in 0..MOST_NEWS {
            let Some((node, is_found)) = self.links.news() else {
                return;
            };
            let word = if is_found { "found" } else { "lost" };
            let _ = eprintln!(rt; "mfpxd: peer {node} {word}");
        }
    }

    // Whether the node has campaigned.
    fn tell_of_campaigns(&mut self, rt: &HostRuntime) {
        let campaigns = self.server.timing().campaigns();
        if campaigns != self.campaigns {
            self.campaigns = campaigns;
            let position = self.server.position();
            let _ = eprintln!(rt; "mfpxd: campaign {campaigns} at position {position}");
        }
    }
}
