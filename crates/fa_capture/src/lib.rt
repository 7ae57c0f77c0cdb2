//! Captures of /dev/fuse traffic: from bytes to messages.
//!
//! [`read_capture`] splits the bytes of a capture in either [`Format`] into [`Packet`]s, whose bytes are slices of the
//! capture, and tells the first fault of the framing; a [`Walk`] does so one packet at a time, a [`Feed`] with a capture
//! that comes in pieces, and [`Incoming`] with one that comes in pieces and is not kept. [`front`] gives the capture of its
//! first messages. [`migrate`] writes one anew in the format that has times, and [`put_migrated`] puts it piece by piece.
//! [`Input`] and [`Output`] are where bytes come from and go to, and [`read_all`] reads the whole of an input.
#![tactic(auto)]

mod capture;
pub mod codes;
mod device;
mod fault;
mod feed;
mod format;
mod incoming;
mod input;
pub mod laws;
pub mod limits;
mod migration;
mod output;
mod packet;
mod packets;
mod reading;
mod seed;
mod walk;

pub use capture::Capture;
pub use device::Device;
pub use fault::CaptureFault;
pub use feed::{Feed, FeedError, Stored};
pub use format::Format;
pub use incoming::{Arrived, Incoming};
pub use input::{Input, MAX_READ_LIMIT, PIECE, Pull, ReadError, SPARE_PULLS, read_all};
pub use migration::{MigrateError, migrate, put_migrated};
pub use output::{Broken, Output};
pub use packet::{Direction, Packet};
pub use packets::Packets;
pub use reading::{front, read_capture};
pub use seed::{KeyHasher, Seed};
pub use walk::Walk;
