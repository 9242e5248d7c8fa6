// Laws of jobs: nothing here is run for its answer.
ghost use Rattle.line_job.specs.Laws.{HasOneAnswer, Splits};

use crate::job::LineJob;

/// Of a job, an input has one answer at most: one text, or one cause after one text.
pub fn one_answer<J: LineJob>(_job: &J)
    ensures { HasOneAnswer J.rules }
{}

/// Rows are independent: an input that is cut between rows, and given to two runs with the headers in front, gives the
/// text of one run.
pub fn splits<J: LineJob>(_job: &J)
    ensures { Splits J.rules }
{}
