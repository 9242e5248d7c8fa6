// Texts of lines that are written together.
ghost use Rattle.std.specs.Prelude.{◌≡◌, [], OnOk, OnErr, string_bytes};
ghost use Rattle.std.specs.Io.KnownBytes.{Appends};
ghost use Rattle.line_job.specs.Inner.Step.{SentIfDue, IsUnsent};

use edge_io::{Failed, Sink, Source, write_all};
use whiteread::Reader;

/// How many bytes are written together at most, but for the last line's text.
const FULL: usize = 65536;

/// Writes the texts that were kept, and keeps none any more. Where there is none nothing is written.
pub(crate) fn send<K: Sink>(output: &mut K, batch: &mut String) -> Result<(), Failed>
    ensures ok { OnOk result (Appends (K.held output.old) (K.held output.new) (string_bytes batch.old)) }
    ensures no_fault { OnOk result (K.faults output.new ≡ K.faults output.old) }
    ensures sent { OnOk result (string_bytes batch.new ≡ []) }
    ensures unsent { OnErr result (IsUnsent K.held K.faults output.old output.new (string_bytes batch.old)) }
{
    if batch.is_empty() {
        return Ok(());
    }
    write_all(output, batch.as_bytes())?;
    batch.clear();
    Ok(())
}

/// Writes the texts that were kept, where the next line asks for a read or there are many.
pub(crate) fn send_if_due<B: Source, K: Sink>(
    reader: &mut Reader<B>,
    output: &mut K,
    batch: &mut String,
) -> Result<(), Failed>
    ensures { SentIfDue K.held K.faults reader.old reader.new output.old output.new (string_bytes batch.old) (string_bytes batch.new) result }
{
    if batch.len() >= FULL || !reader.line_waits() {
        send(output, batch)
    } else {
        Ok(())
    }
}
