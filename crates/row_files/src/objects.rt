// The objects that a call of the program is given.
ghost use Rattle.std.specs.Prelude.{◌<◌};

use crate::compared::Outcome;
use crate::row::{Kind, Object, Row, peer_of};
use crate::slow::SlowLinks;
use outside::{MemFiles, MemLinks, MemSink, MemSpawner};
use std::alloc::{AllocError, Global};

/// What a call of the program finds, as a row says: files, streams, links and children in memory.
pub struct Objects {
    pub files: MemFiles,
    pub out: MemSink,
    pub err: MemSink,
    pub links: SlowLinks,
    pub children: MemSpawner,
}

// Written out, so that an early exit calls this once.
impl Drop for Objects {
    fn drop(self) {
        let Objects {
            files: _,
            out: _,
            err: _,
            links: _,
            children: _,
        } = self;
    }
}

// Files, of which calls fail as the row says.
fn files_of(alloc: Global, row: &Row) -> Result<MemFiles, AllocError> {
    let mut files = MemFiles::new(alloc, row.fails(alloc, Object::Files)?);
    for text in row.texts.iter() {
        if text.kind == Kind::Held {
            files.place(alloc, text.name.as_str(), &text.bytes)?;
        }
    }
    Ok(files)
}

// Links from which comes what the row says.
fn links_of(alloc: Global, row: &Row) -> Result<MemLinks, AllocError> {
    let mut links = MemLinks::new(alloc, row.fails(alloc, Object::Links)?);
    for text in row.texts.iter() {
        if text.kind == Kind::Arriving {
            links.arrive(peer_of(text.name.as_str()), &text.bytes)?;
        }
    }
    Ok(links)
}

fn children_of(alloc: Global, row: &Row) -> Result<MemSpawner, AllocError> {
    let statuses = row.children.to_vec(alloc)?;
    Ok(MemSpawner::new(alloc, statuses, row.fails(alloc, Object::Children)?))
}

fn sink_of(alloc: Global, row: &Row, object: Object, most: usize) -> Result<MemSink, AllocError>
    requires { 0 < most }
{
    Ok(MemSink::slow(alloc, row.fails(alloc, object)?, most))
}

impl Objects {
    /// What a row says that a call finds. A slow row's streams and links move one byte at a time, the others at most seven.
    pub fn new(alloc: Global, row: &Row) -> Result<Self, AllocError> {
        let most = if row.slow { 1 } else { 7 };
        let files = files_of(alloc, row)?;
        let links = links_of(alloc, row)?;
        let children = children_of(alloc, row)?;
        let out = sink_of(alloc, row, Object::Out, most)?;
        let err = sink_of(alloc, row, Object::Err, most)?;
        Ok(Objects {
            files,
            out,
            err,
            links: SlowLinks { links, most },
            children,
        })
    }

    /// What a call left that answered this status.
    pub fn outcome(self, status: u8) -> Outcome {
        let Objects {
            files,
            out,
            err,
            links: SlowLinks { links, most: _ },
            children,
        } = self;
        Outcome {
            status,
            files,
            out,
            err,
            links,
            children,
        }
    }
}
