//! What the files of a trace say.

use ffm_model::Trace;
use work_orders::TraceWork;

/// What the files of a trace say.
#[derive(Drop)]
pub struct TraceFiles {
    pub work: TraceWork,
    pub trace: Trace,
}
