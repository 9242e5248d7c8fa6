// A job that goes line by line.
ghost use Rattle.std.specs.Prelude.{◌≡◌, ◌++◌, ◌∷◌, [], ℕ, List, Bool, true, OnOk, OnErr, IfErr, string_bytes, length};
ghost use Rattle.whiteread.specs.Lines.{line_feed};
ghost use Rattle.line_job.specs.Grown.{IsGrown};
ghost use Rattle.line_job.specs.Rules.{Rules};
ghost use Rattle.line_job.specs.Refusal.{IfRefused};
ghost use Rattle.line_job.specs.Laws.{AreClear};
ghost use Rattle.line_job.specs.declared.job.Refusal.TheVariants.{NoMemory};

use crate::message::Cause;
use std::alloc::{AllocError, AllocFailed, Global};

/// Why a job doesn't take a line, or the end.
#[derive(Clone, Copy, Debug, PartialEq, Eq)]
pub enum Refusal<W: Copy> {
    /// The line is refused, or the input may not end here.
    Line(W),
    /// There was no memory.
    NoMemory,
}

impl<W: Copy> From<AllocError> for Refusal<W> {
    ghost from_gives = { λ _ refusal. refusal ≡ NoMemory };

    fn from(_: AllocError) -> Self {
        Refusal::NoMemory
    }
}

impl<W: Copy, T: Drop> From<AllocFailed<T>> for Refusal<W> {
    ghost from_gives = { λ _ refusal. refusal ≡ NoMemory };

    fn from(_: AllocFailed<T>) -> Self {
        Refusal::NoMemory
    }
}

/// Puts a line feed behind the text that was put to `out` after its first `before` bytes; or takes that text out again, where there is
/// no memory, so that nothing is owed for the line.
pub fn end_line<W: Copy>(out: &mut String, before: usize) -> Result<(), Refusal<W>>
    requires { IsGrown before (string_bytes out.old) }
    ensures ok { OnOk result (string_bytes out.new ≡ string_bytes out.old ++ line_feed ∷ []) }
    ensures memory { IfErr result (λ why. why ≡ NoMemory) }
    ensures as_before { (front more : List ℕ) → string_bytes out.old ≡ front ++ more → before ≡ length front → OnErr result (string_bytes out.new ≡ front) }
{
    match out.push_str("\n") {
        Ok(()) => Ok(()),
        Err(_) => {
            out.truncate(before);
            Err(Refusal::NoMemory)
        }
    }
}

/// A job that goes line by line. Lines come in order, without their line feeds, and count from 1.
pub trait LineJob {
    /// Why it refuses a line.
    type Why: Cause;

    /// Where it stands, as plain data.
    ghost Stage: { Type 0 };

    ghost stage: { Self → Self.Stage };

    /// What it makes of lines.
    ghost rules: { Rules Self.Stage Self.Why };

    /// What holds of the job whenever a line or the end comes: each line keeps it.
    ghost IsSound: { Self → Type 0 };

    /// Whether it judges another line. Where it doesn't, the rest of the input is read and not judged.
    fn judges(&self) -> bool
        ensures { result ≡ Self.rules.judges (Self.stage self.now) };

    /// Judges a line, and puts what is owed for it at the end of `out`.
    fn line(
        &mut self,
        alloc: Global,
        number: u64,
        line: &str,
        out: &mut String,
    ) -> Result<(), Refusal<Self::Why>>
        requires judged { Self.rules.judges (Self.stage self.old) ≡ true }
        requires sound { Self.IsSound self.old }
        ensures kept { OnOk result ((text : List ℕ) × Self.rules.keeps (Self.stage self.old) number line.now text (Self.stage self.new) × (string_bytes out.new ≡ string_bytes out.old ++ text)) }
        ensures refused { IfRefused result (Self.rules.refuses (Self.stage self.old) number line.now) }
        ensures sound { OnOk result (Self.IsSound self.new) }
        ensures as_before { OnErr result (string_bytes out.new ≡ string_bytes out.old) };

    /// Judges the end of the input after so many lines, and puts what is owed last at the end of `out`.
    fn end(&self, alloc: Global, before: u64, out: &mut String) -> Result<(), Refusal<Self::Why>>
        requires { Self.IsSound self.now }
        ensures kept { OnOk result ((text : List ℕ) × Self.rules.ends (Self.stage self.now) text × (string_bytes out.new ≡ string_bytes out.old ++ text)) }
        ensures refused { IfRefused result (Self.rules.misses (Self.stage self.now) before) }
        ensures as_before { OnErr result (string_bytes out.new ≡ string_bytes out.old) };

    /// A line has one answer, and so has the end.
    ghost clear: { AreClear Self.rules };
}
