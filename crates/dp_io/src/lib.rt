//! Where bytes come from and go to: sources and sinks, and what stands for them in memory and over
//! std.
#![tactic(auto)]

mod adapters;
mod memory_sink;
mod memory_source;
mod plan;
mod sink;
mod source;
mod sure_source;

pub use adapters::{StdSink, StdSource};
pub use memory_sink::MemSink;
pub use memory_source::MemSource;
pub use plan::FaultPlan;
pub use sink::{Sink, put_all};
pub use source::{Failed, Source};
pub use sure_source::SureSource;
