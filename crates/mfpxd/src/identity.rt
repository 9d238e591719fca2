//! Whose records a database holds.
//!
//! Records are a node's memory of its promises. A node that loses them, or takes another's, breaks what it promised. So a text beside
//! the database says of which run, which node and how many nodes it is. It is written and synced before the database is made, with a
//! line that says so, and written anew without that line once it is. The node serves nobody before that: as long as the line is there,
//! it has promised nothing, and a first start that was cut off may be made again.

ghost use Rattle.std.specs.Prelude.{◌≡◌, ◌↔◌, None, option_map, string_bytes, IfOk};
ghost use Rattle.mfpxd.specs.Identities.{MayStart, Says, begun_text, identity_text};

use crate::refusal::Refusal;
use crate::stop::Stop;
use peers::NAME;
use std::alloc::{AllocError, Global};
use std::fs::OpenOptions;
use std::io::Write;
use std::{fs, io};
use wire::{NodeId, Nodes};

/// What the text beside a database says of a node.
#[derive(Clone, Copy, Debug, PartialEq, Eq)]
pub enum Standing {
    /// There is none.
    Missing,
    /// It is the node's own, which has begun and not served yet.
    Begun,
    /// It is the node's own, which may have served.
    Served,
    /// It is another's.
    Foreign,
}

/// The text of a node that starts.
#[derive(Drop)]
pub struct Identity {
    path: String,
    text: String,
    // The text is there without the line that the node has only begun.
    is_served: bool,
}

impl Identity {
    /// The text beside this database, where the node may start over it. On a first start there is none, and it is written.
    pub fn see(
        rt: &HostRuntime,
        db: &str,
        name: &[u8; NAME],
        id: NodeId,
        nodes: Nodes,
        is_new: bool,
    ) -> Result<Identity, Stop> {
        let alloc = rt.alloc();
        let path = format!(in alloc; "{db}.node")?;
        let text = identity_of(alloc, name, id, nodes)?;
        let begun = begun_of(alloc, text.as_str())?;
        let has_database = fs::exists(rt, db)?;
        let found = read_identity(rt, path.as_str())?;
        let standing = standing_of(&found, text.as_bytes(), begun.as_bytes());
        if let Some(refusal) = refusal_of(is_new, has_database, standing) {
            return Err(Stop::Refused(refusal));
        }
        if let Standing::Missing = standing {
            write_text(rt, path.as_str(), begun.as_str())?;
        }
        let is_served = standing == Standing::Served;
        Ok(Identity {
            path,
            text,
            is_served,
        })
    }

    /// The database is there: from now on the node serves, and without it never starts again.
    pub fn note_served(&self, rt: &HostRuntime) -> Result<(), Stop> {
        if !self.is_served {
            write_text(rt, self.path.as_str(), self.text.as_str())?;
        }
        Ok(())
    }
}

/// The text that stands there, or None where there is no such file.
fn read_identity(rt: &HostRuntime, path: &str) -> io::Result<Option<Vec<u8>>> {
    if fs::exists(rt, path)? {
        Ok(Some(fs::read(rt, path)?))
    } else {
        Ok(None)
    }
}

/// What the text says of the node whose text is this, and this one where it has only begun.
fn standing_of(found: &Option<Vec<u8>>, own: &[u8], begun: &[u8]) -> Standing
    requires { begun.now ≡ begun_text own.now }
    ensures { Says own.now (option_map (λ text. text.items) found.now) result }
{
    match found {
        None => Standing::Missing,
        Some(text) if text.as_slice() == own => Standing::Served,
        Some(text) if text.as_slice() == begun => Standing::Begun,
        Some(_) => Standing::Foreign,
    }
}

/// Why a node doesn't start over what stands there; None where it does.
fn refusal_of(is_new: bool, has_database: bool, standing: Standing) -> Option<Refusal>
    ensures { result ≡ None ↔ MayStart is_new has_database standing }
{
    match standing {
        Standing::Missing if is_new && !has_database => None,
        Standing::Missing if is_new => Some(Refusal::SecondHand),
        Standing::Missing => Some(Refusal::NoIdentity),
        // As long as no database was made, by --new alone; and then without it.
        Standing::Begun if is_new != has_database => None,
        Standing::Begun if is_new => Some(Refusal::Made),
        Standing::Begun => Some(Refusal::CutOff),
        Standing::Served | Standing::Foreign if is_new && has_database => Some(Refusal::SecondHand),
        Standing::Served | Standing::Foreign if is_new => Some(Refusal::SecondStart),
        Standing::Served | Standing::Foreign if !has_database => Some(Refusal::NoDatabase),
        Standing::Served => None,
        Standing::Foreign => Some(Refusal::Foreign),
    }
}

/// The text of this node.
fn identity_of(
    alloc: Global,
    name: &[u8; NAME],
    id: NodeId,
    nodes: Nodes,
) -> Result<String, AllocError>
    ensures { IfOk result (λ text. string_bytes text ≡ identity_text name.now id nodes) }
{
    let run = hex::encode(alloc, name.as_slice())?;
    let node = id.value();
    let count = nodes.count();
    format!(in alloc; "run {run}\nnode {node}\nnodes {count}\n")
}

/// The text of a node of which this is the text, as long as it has only begun.
fn begun_of(alloc: Global, own: &str) -> Result<String, AllocError>
    ensures { IfOk result (λ text. string_bytes text ≡ begun_text own.now) }
{
    format!(in alloc; "{own}begun\n")
}

/// The file has this text, on the disk, or it has what it had.
fn write_text(rt: &HostRuntime, path: &str, text: &str) -> io::Result<()> {
    let part = format!(in rt.alloc(); "{path}.part")?;
    let mut file = OpenOptions::new()
        .write(true)
        .create(true)
        .truncate(true)
        .open(rt, part.as_str())?;
    file.write_all(text.as_bytes())?;
    file.sync_all()?;
    fs::rename(rt, part.as_str(), path)?;
    // The folder too, or the name could be lost with the power.
    fs::File::open(rt, folder_of(path))?.sync_all()
}

/// The folder in which the file lies.
fn folder_of(path: &str) -> &str {
    match path.rsplit_once('/') {
        Some(("", _)) => "/",
        Some((folder, _)) => folder,
        None => ".",
    }
}
