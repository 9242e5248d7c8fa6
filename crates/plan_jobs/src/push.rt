// A line that is owed whole or not at all.
ghost use Rattle.std.specs.Prelude.{◌≡◌, ◌++◌, ◌∷◌, [], OnOk, OnErr, IfErr, string_bytes};
ghost use Rattle.whiteread.specs.Lines.{line_feed};
ghost use Rattle.line_job.specs.declared.job.Refusal.TheVariants.{NoMemory};

use line_job::{Refusal, end_line};

/// Puts a text and a line feed at the end of `out`, or leaves `out` as it was.
pub(crate) fn push_line<Why: Copy>(out: &mut String, text: &str) -> Result<(), Refusal<Why>>
    ensures ok { OnOk result (string_bytes out.new ≡ string_bytes out.old ++ (text.now ++ line_feed ∷ [])) }
    ensures memory { IfErr result (λ why. why ≡ NoMemory) }
    ensures as_before { OnErr result (string_bytes out.new ≡ string_bytes out.old) }
{
    let before = out.len();
    out.push_str(text)?;
    end_line(out, before)
}
