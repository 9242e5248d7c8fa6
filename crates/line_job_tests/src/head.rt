//! The first line is owed at the end of the input; the lines after it are read and not judged.

ghost use Rattle.line_job_tests.specs.Head.{Stage, stage_of, head_rules, missing_message, head_clear};

use line_job::{Cause, LineJob, Message, Refusal, text_message};
use std::alloc::Global;

/// There is no first line.
#[derive(Clone, Copy)]
pub struct Missing;

impl Cause for Missing {
    ghost message = { missing_message };

    fn message(self) -> Message {
        text_message(b"no line\n")
    }
}

/// The job, and the first line once it came.
#[derive(Drop)]
pub struct Head {
    pub line: Option<String>,
}

impl LineJob for Head {
    type Why = Missing;

    ghost Stage = { Stage };

    ghost stage = { λ job. stage_of job.line };

    ghost rules = { head_rules };

    ghost IsSound = { λ _. Unit {0} };

    fn judges(&self) -> bool {
        self.line.is_none()
    }

    fn line(
        &mut self,
        alloc: Global,
        _number: u64,
        line: &str,
        _out: &mut String,
    ) -> Result<(), Refusal<Missing>> {
        self.line = Some(line.to_string(alloc)?);
        Ok(())
    }

    fn end(&self, _alloc: Global, _before: u64, out: &mut String) -> Result<(), Refusal<Missing>> {
        match &self.line {
            Some(line) => {
                out.push_str(line.as_str())?;
                Ok(())
            }
            None => Err(Refusal::Line(Missing)),
        }
    }

    ghost clear = { head_clear };
}
