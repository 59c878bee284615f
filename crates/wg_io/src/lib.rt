//! Files that are read whole and a sink that text is written to, each with a count of its faults.
#![tactic(auto)]

mod files;
mod mem;
mod named;
mod no_fault;
mod real;
mod sink;
mod take;

pub use files::{FileFault, Files};
pub use mem::{MemFiles, MemSink};
pub use named::NamedFiles;
pub use no_fault::{NoFaultFiles, NoFaultSink};
pub use real::{RealFiles, RealSink};
pub use sink::{Failed, Sink, write_all};

#[cfg(test)]
mod tests;
