//! The site: what all threads of a session have in common, apart from its publisher and the runtime.
use crate::board::Board;
use crate::fault::FanoutFault;
use crate::plan::Plan;
use commands::Verdict;
use flow_rules::Watching;
use inbox::Inlet;
use std::alloc::Global;
use std::sync::Arc;

/// The listeners of a session.
pub type Inlets<R> = Watching<Inlet<R>>;

/// What all threads of a session read.
#[derive(Drop)]
pub struct Site {
    /// What gives all memory.
    pub alloc: Global,
    /// What the command line asks for.
    pub plan: Arc<Plan>,
    /// What each source and each sink has done.
    pub board: Arc<Board>,
    /// How many bytes a file may have that is written, if that is limited.
    pub limit: Option<u64>,
    /// Where it is said how the session ends.
    pub verdict: Arc<Verdict<FanoutFault>>,
}
