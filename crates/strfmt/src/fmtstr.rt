// Texts: their field, and the filling of a text with patterns.

ghost use Rattle.std.specs.Prelude.{◌≡◌, ◌⊎◌, [], Ok, Err, IfOk, IfErr, chars, string_bytes};
ghost use Rattle.strfmt.specs.Fault.{first_failure};
ghost use Rattle.strfmt.specs.Field.{padded, sides, text_checks, text_field, unchecked_field};
ghost use Rattle.strfmt.specs.Spec.{Appends, view_aligned};
ghost use Rattle.strfmt.specs.Walk.{IsWalk};

use crate::cause::Cause;
use crate::{Alignment, FmtError, Formatter, Result, Template};
use padding::{Field, count_chars, front};
use std::alloc::Global;

/// How many fills stand on the left and on the right; at `Equal` there is no place for any.
fn sides(align: &Alignment, missing: usize) -> Option<(usize, usize)>
    ensures { result ≡ sides align.now missing }
{
    if missing == 0 {
        return Some((0, 0));
    }
    match align {
        Alignment::Unspecified | Alignment::Left => Some((0, missing)),
        Alignment::Right => Some((missing, 0)),
        Alignment::Center => Some((missing / 2, missing - missing / 2)),
        Alignment::Equal => None,
    }
}

impl Formatter<'_> {
    /// Appends `front`, and then `text` padded to the width.
    pub(crate) fn write_padded(&mut self, front: &str, text: &str) -> Result<()>
        ensures { Appends (padded self.old.spec front.now (chars text.now)) self.old result self.new }
    {
        let missing = self.width.unwrap_or(0).saturating_sub(count_chars(text));
        let Some((left, right)) = sides(&self.align, missing) else {
            return Err(Cause::PaddingAtEqual.told(*self.text.allocator()));
        };
        let field = Field {
            head: front,
            left,
            lead: "",
            zeros: 0,
            text,
            right,
            fill: self.fill,
        };
        field.push(&mut self.text)?;
        Ok(())
    }

    /// Appends a text, cut to the precision and padded to the width; an unspecified alignment pads as `Left`.
    ///
    /// `Invalid` comes where the alignment is `Equal` and padding is needed. Nothing else of the specification is looked at.
    pub fn str_unchecked(&mut self, s: &str) -> Result<()>
        ensures { Appends (unchecked_field self.old.spec s.now) self.old result self.new }
    {
        match self.precision {
            Some(precision) => self.write_padded("", front(s, precision)),
            None => self.write_padded("", s),
        }
    }

    /// Why the specification isn't one of a text.
    fn text_cause(&self) -> Option<Cause>
        ensures { result ≡ first_failure (text_checks self.now.spec) }
    {
        match self.ty {
            None | Some('s') => {}
            Some(ty) => return Some(Cause::NotOfTexts(ty)),
        }
        if self.alternate {
            return Some(Cause::AlternateOfText);
        }
        if self.thousands {
            return Some(Cause::CommaOfText);
        }
        if !self.sign.is_unspecified() {
            return Some(Cause::SignOfText);
        }
        None
    }

    /// Appends a text as its field; an unspecified alignment becomes `Left`.
    pub fn str(&mut self, s: &str) -> Result<()>
        ensures { Appends (text_field self.old.spec s.now) (view_aligned Alignment.Left self.old) result self.new }
    {
        self.set_default_align(Alignment::Left);
        match self.text_cause() {
            None => self.str_unchecked(s),
            Some(cause) => Err(cause.told(*self.text.allocator())),
        }
    }
}

/// Fills a text's patterns by calls of a closure, from left to right.
///
/// `f` gets each pattern as a formatter without text; where it answers Ok, the text that the formatter then holds
/// stands in the place of the pattern. The first fault from the left is the answer: of a brace, of a pattern, or of
/// `f`, which isn't called after it. `Template` fills one text many times.
pub fn strfmt_map<F>(alloc: Global, fmtstr: &str, mut f: F) -> Result<String>
where
    F: FnMut(&mut Formatter<'_>) -> Result<()>,
    requires { F.IsAlwaysCallable f }
    ensures ok { IfOk result (λ text. (last : F) × IsWalk F.FnMut f fmtstr.now (Ok (string_bytes text)) last) }
    ensures err { IfErr result (λ e. (e ≡ FmtError.NoMemory) ⊎ ((last : F) × IsWalk F.FnMut f fmtstr.now (Err e) last)) }
{
    let template = Template::new(alloc, fmtstr)?;
    let mut text = String::new(alloc);
    match template.fill(alloc, &mut text, &mut f) {
        Ok(()) => Ok(text),
        Err(error) => Err(error),
    }
}
