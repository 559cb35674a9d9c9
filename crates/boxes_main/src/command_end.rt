//! What a command leaves behind.

ghost use Rattle.std.specs.Prelude.{◌≡◌, [], Some};
ghost use Rattle.boxes_main.specs.Failure.{row_of, status_of, Tells};

use crate::failure::{Fault, status, tell};
use crate::{Failure, House, OpeningFault};
use kn_base::Items;
use link_turn::EndCause;
use peer_dialer::Closed;
use sendsms_http::HttpEnd;
use std::alloc::Global;

/// What a worker did.
#[derive(Clone, Copy)]
pub enum Role {
    /// It served connections over HTTP.
    Http,
    /// It held sessions of the link with this number, from 0.
    Link { link: u32 },
}

/// How a session ended.
#[derive(Clone, Copy)]
pub enum SessionEnd {
    /// A connection over HTTP.
    Http(HttpEnd),
    /// A session of a link.
    Link(EndCause),
}

/// What a worker left.
#[derive(Drop)]
pub struct WorkerEnd<H: House> {
    pub role: Role,
    /// Its clock, where it took one.
    pub clock: Option<H::C>,
    /// Its dialer, where it took one.
    pub dialer: Option<H::Di>,
    /// The ends of its sessions, in order.
    pub ends: Items<SessionEnd>,
    /// What became of the connections that it dialled, in order: their counts, and their talk where that is told.
    pub pasts: Items<Closed>,
}

/// What a command left. `F` is what only the command itself can fail by.
#[derive(Drop)]
pub struct Ended<H: House, F> {
    /// The status for the program to end with.
    pub status: u8,
    /// What went wrong first.
    pub failure: Option<Failure<F>>,
    /// The store's disk. There is none only where none was made.
    pub disk: Option<H::D>,
    /// What the workers left.
    pub workers: Items<WorkerEnd<H>>,
}

/// What is left where the command ended before its work began: the disk, where one was made.
pub(crate) fn unserved<H: House, F: Fault>(
    alloc: Global,
    failure: Failure<F>,
    disk: Option<H::D>,
) -> Ended<H, F>
    ensures status { result.status ≡ status_of (row_of F.says) result.failure }
    ensures failure { result.failure ≡ Some failure }
    ensures disk { result.disk ≡ disk }
    ensures workers { result.workers ≡ [] }
{
    let failure = Some(failure);
    Ended {
        status: status(&failure),
        failure,
        disk,
        workers: Items::new(alloc),
    }
}

/// Says on the house's standard error what went wrong.
pub(crate) fn tell_end<H: House, F: Fault>(house: &mut H, failure: &Option<Failure<F>>)
    ensures rooms { H.rooms house.new ≡ record (H.rooms house.old) { errors = (H.rooms house.new).errors } }
    ensures stock { H.stock house.new ≡ H.stock house.old }
    ensures tells { Tells (row_of F.says) failure.now (H.Er.course (H.rooms house.old).errors) (H.Er.course (H.rooms house.new).errors) }
{
    tell(house.errors(), failure);
}
