//! What the machine that runs modules means (Core 1.0, section 4): its configurations, its steps, its runs and its host.
#![tactic(auto)]

mod access;
mod brief;
mod ends;
mod fault;
mod host;
pub mod reduction_laws;

pub use access::Access;
pub use brief::BriefAnswer;
pub use ends::{End, MachineEnd, RunEnd};
pub use fault::LinkFault;
pub use host::{HostAnswer, HostCalls};
