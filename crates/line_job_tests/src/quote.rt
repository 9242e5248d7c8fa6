//! Each line after the first is owed with the first in front of it; an empty line is refused.

ghost use Rattle.std.specs.Prelude.{◌≡◌, ◌++◌, ◌∷◌, [], OnOk, OnErr, IfErr, string_bytes};
ghost use Rattle.line_job_tests.specs.Quote.{Stage, stage_of, quote_rules, empty_message};
ghost use Rattle.line_job_tests.specs.QuoteClear.{quote_clear};

use line_job::{Cause, LineJob, Message, Refusal, line_message};
use std::alloc::Global;

/// The line of this number is empty, or the first line is missing.
#[derive(Clone, Copy)]
pub struct Empty {
    pub line: u64,
}

impl Cause for Empty {
    ghost message = { empty_message };

    fn message(self) -> Message {
        line_message(self.line, b"empty")
    }
}

/// The job, and the first line once it came.
#[derive(Drop)]
pub struct Quote {
    pub lead: Option<String>,
}

// Puts the lead, the line and a line feed at the end.
fn put(alloc: Global, lead: &str, line: &str, out: &mut String) -> Result<(), Refusal<Empty>>
    ensures ok { OnOk result (string_bytes out.new ≡ string_bytes out.old ++ (lead.now ++ (line.now ++ 10 ∷ []))) }
    ensures as_before { OnErr result (string_bytes out.new ≡ string_bytes out.old) }
    ensures memory { IfErr result (λ why. why ≡ Refusal.NoMemory) }
{
    let mut text = lead.to_string(alloc)?;
    text.push_str(line)?;
    text.push_str("\n")?;
    out.push_str(text.as_str())?;
    Ok(())
}

impl LineJob for Quote {
    type Why = Empty;

    ghost Stage = { Stage };

    ghost stage = { λ job. stage_of job.lead };

    ghost rules = { quote_rules };

    ghost IsSound = { λ _. Unit {0} };

    fn judges(&self) -> bool {
        true
    }

    fn line(
        &mut self,
        alloc: Global,
        number: u64,
        line: &str,
        out: &mut String,
    ) -> Result<(), Refusal<Empty>> {
        let Some(lead) = &self.lead else {
            self.lead = Some(line.to_string(alloc)?);
            return Ok(());
        };
        if line.is_empty() {
            return Err(Refusal::Line(Empty { line: number }));
        }
        put(alloc, lead.as_str(), line, out)
    }

    fn end(&self, _alloc: Global, _before: u64, _out: &mut String) -> Result<(), Refusal<Empty>> {
        match &self.lead {
            Some(_) => Ok(()),
            None => Err(Refusal::Line(Empty { line: 1 })),
        }
    }

    ghost clear = { quote_clear };
}
