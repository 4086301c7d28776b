// The end of a source, in the middle of an attempt.
use refusal::Fault;
use steps::Ended;

/// Which source ended, and where.
pub type Stopped = Ended<Fault>;
