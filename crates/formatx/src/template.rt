// A template with its source: parsed once, printed many times.
ghost use Rattle.std.specs.Prelude.{◌≡◌, ◌∷◌, ◌↔◌, ℕ, List, [], Contains, Err, IfErr, IfOk, IsTrue, MatchOption, OnErr, OnOk, map, string_bytes};
ghost use Rattle.formatx.specs.Fault.{Tells};
ghost use Rattle.formatx.specs.Grammar.{HasFault, IsTemplate};
ghost use Rattle.formatx.specs.Spans.{Fits, SegmentFits};
ghost use Rattle.formatx.specs.Templates.{HasNames, segment_names};
ghost use Rattle.formatx.specs.Inner.Parts.{names_in};
ghost use Rattle.formatx.specs.Scene.{scene_over};
ghost use Rattle.formatx.specs.Text.{AppendsPrinted, Prints};

use crate::ast::{Argument, FormatString, Segment};
use crate::error::Error;
use crate::format::render;
use crate::names::Names;
use crate::parser::parse;
use crate::renderer::Renderer;
use crate::value::{FormatValue, take_back};
use std::alloc::Global;
use std::fmt;
use std::marker::Model;

/// A template: its source, and the segments that were read from it.
#[derive(Drop)]
pub struct Template {
    source: String,
    parsed: FormatString,
}

impl Model for Template {
    ghost use Rattle.std.specs.Prelude.{List, ℕ, string_bytes};
    ghost use Rattle.formatx.specs.Grammar.{Spells};
    ghost use Rattle.formatx.specs.Spans.{Fits};

    ghost Value = { List ℕ };

    ghost view = { λ t. string_bytes t.source };

    ghost invariant = { λ t. Spells (string_bytes t.source) t.parsed.segments.items × Fits (string_bytes t.source) t.parsed.segments.items };
}

/// It shows the source.
impl fmt::Debug for Template {
    fn fmt<W: fmt::Write>(&self, f: &mut fmt::Formatter<W>) -> fmt::Result {
        let source = self.source.as_str();
        write!(f, "Template {{ source: {source:?} }}")
    }
}

/// It prints the source unchanged.
impl fmt::Display for Template {
    ghost use Rattle.std.specs.Prelude.{Some};

    ghost output = { λ t. Some t };

    fn fmt<W: fmt::Write>(&self, f: &mut fmt::Formatter<W>) -> fmt::Result {
        f.write_str(self.source.as_str())
    }
}

// The name of a segment's argument, if it is a placeholder with one.
fn segment_name<'a>(source: &'a str, segment: &Segment) -> Option<&'a str>
    requires { SegmentFits source.now segment.now }
    ensures { MatchOption result (segment_names source.now segment.now ≡ []) (λ s. segment_names source.now segment.now ≡ s.now ∷ []) }
{
    match segment {
        Segment::Placeholder(placeholder) => match &placeholder.argument {
            Argument::Named(span) => Some(&source[span.start..span.end]),
            Argument::Implicit | Argument::Positional(_) => None,
        },
        Segment::Literal(_) | Segment::EscapedOpen | Segment::EscapedClose => None,
    }
}

// Whether one of the segments has this name.
fn has_name(source: &str, segments: &[Segment], name: &str) -> bool
    requires { Fits source.now segments.now }
    ensures { IsTrue result ↔ Contains (names_in source.now segments.now) name.now }
{
    'segments: for segment in segments {
        if let Some(found) = segment_name(source, segment) {
            if found == name {
                return true;
            }
        }
    }
    false
}

// The names of the segments in order.
fn collect_names<'a>(
    alloc: Global,
    source: &'a str,
    segments: &[Segment],
) -> Result<Vec<&'a str>, Error>
    requires { Fits source.now segments.now }
    ensures ok { IfOk result (λ names. map (λ s. s.now) names.items ≡ names_in source.now segments.now) }
    ensures memory { IfErr result (λ e. e ≡ Error.NoMemory) }
{
    let mut names = Vec::new(alloc);
    'segments: for segment in segments {
        if let Some(name) = segment_name(source, segment) {
            if names.push(name).is_err() {
                return Err(Error::NoMemory);
            }
        }
    }
    Ok(names)
}

impl Template {
    /// Reads a template, and keeps a copy of its source.
    pub fn new(alloc: Global, source: &str) -> Result<Template, Error>
        ensures ok { IfOk result (λ t. t ≡ source.now) }
        ensures spells { OnOk result (IsTemplate source.now) }
        ensures err { IfErr result (λ e. Tells e (HasFault source.now)) }
        ensures outside { IfErr result (λ e. Tells e (λ _. IsTemplate source.now → ⊥)) }
    {
        let parsed = parse(alloc, source)?;
        let source = String::from_str(alloc, source)?;
        Ok(Template { source, parsed })
    }

    /// A renderer without values. It takes no memory.
    pub fn render<V: FormatValue>(&self, alloc: Global) -> Renderer<'_, V>
        ensures source { result.source ≡ self.now }
        ensures values { result.values ≡ [] }
        ensures names { result.names ≡ [] }
    {
        Renderer::new(self, alloc)
    }

    /// Whether a placeholder's argument has this name. The names of counts aren't looked at. It takes no memory.
    pub fn contains(&self, name: &str) -> bool
        ensures { (names : List (List ℕ)) × HasNames self.now names × (IsTrue result ↔ Contains names name.now) }
    {
        has_name(self.source.as_str(), self.parsed.segments.as_slice(), name)
    }

    /// The names of the placeholders' arguments in order, repeats kept, as slices of the source.
    pub fn placeholders(&self, alloc: Global) -> Result<Vec<&str>, Error>
        ensures ok { IfOk result (λ names. HasNames self.now (map (λ s. s.now) names.items)) }
        ensures memory { IfErr result (λ e. e ≡ Error.NoMemory) }
    {
        collect_names(alloc, self.source.as_str(), self.parsed.segments.as_slice())
    }

    /// The source, unchanged.
    pub fn source(&self) -> &str
        ensures { result.now ≡ self.now }
    {
        self.source.as_str()
    }

    /// Appends what the template prints over values: `args` by position, and `names` for the names of some positions.
    /// Where `strict` isn't set, a placeholder whose value is missing prints nothing. After a refusal `out` is as before.
    /// Nothing of a row is owned, and a value without options is displayed straight into `out`.
    pub fn render_into<V: FormatValue>(
        &self,
        alloc: Global,
        out: &mut String,
        args: &[V],
        names: &Names,
        strict: bool,
    ) -> Result<(), Error>
        ensures ok { OnOk result (AppendsPrinted (scene_over V.meaning self.now args.now names.now strict) (string_bytes out.old) (string_bytes out.new)) }
        ensures err { IfErr result (λ e. Tells e (λ fault. Prints (scene_over V.meaning self.now args.now names.now strict) (Err fault))) }
        ensures unchanged { OnErr result (string_bytes out.new ≡ string_bytes out.old) }
    {
        let len = out.len();
        let source = self.source.as_str();
        match render(alloc, out, source, &self.parsed, args, names, strict) {
            Ok(()) => Ok(()),
            Err(error) => {
                take_back(out, len);
                Err(error)
            }
        }
    }
}
