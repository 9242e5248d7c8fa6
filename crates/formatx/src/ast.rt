// The syntax tree of a template.
ghost use Rattle.std.specs.Prelude.{◌≡◌, ◌↔◌, IsTrue, MatchOption, ⊤};
ghost use Rattle.formatx.specs.Spans.{SpanFits, ArgumentFits, SegmentFits, Fits, HasNoOptions, no_options};
ghost use Rattle.formatx.specs.Inner.Parts.{CountFits, PrecisionFits};

/// A range of bytes in the source of a template: `start` belongs to it, `end` doesn't.
#[derive(Debug, Clone, Copy, PartialEq, Eq)]
pub struct Span {
    pub start: usize,
    pub end: usize,
}

/// A parsed template: its segments, end to end.
#[derive(Debug, Drop)]
pub struct FormatString {
    pub segments: Vec<Segment>,
}

/// One piece of a template.
#[derive(Debug, Clone, Drop)]
pub enum Segment {
    /// A longest run without braces.
    Literal(Span),
    /// `{{`, which prints `{`.
    EscapedOpen,
    /// `}}`, which prints `}`.
    EscapedClose,
    /// `{` up to `}`.
    Placeholder(Placeholder),
}

/// A placeholder with its braces.
#[derive(Debug, Clone, Drop)]
pub struct Placeholder {
    pub argument: Argument,
    pub spec: FormatSpec,
    /// From the `{` to the `}`, both included.
    pub span: Span,
}

/// Which value a placeholder prints.
#[derive(Debug, Clone, Drop)]
pub enum Argument {
    /// The next implicit position.
    Implicit,
    Positional(usize),
    /// The span of the name.
    Named(Span),
}

/// What stands after the `:` of a placeholder.
#[derive(Debug, Clone, Drop)]
pub struct FormatSpec {
    pub fill: Option<char>,
    pub align: Option<Align>,
    pub sign: Option<Sign>,
    /// `#`, which has no effect.
    pub alternate: bool,
    /// `0`, which has no effect under a fill or an alignment.
    pub zero_pad: bool,
    pub width: Option<Count>,
    pub precision: Option<Precision>,
    pub format_type: FormatType,
}

#[derive(Debug, Clone, Copy, PartialEq, Eq)]
pub enum Align {
    Left,
    Center,
    Right,
}

#[derive(Debug, Clone, Copy, PartialEq, Eq)]
pub enum Sign {
    Plus,
    /// Accepted, and without effect.
    Minus,
}

/// A width or a precision in characters, as a number or as a value that holds it.
#[derive(Debug, Clone, Drop)]
pub enum Count {
    Literal(usize),
    Param(CountParam),
}

/// The value that a count is read from.
#[derive(Debug, Clone, Drop)]
pub enum CountParam {
    Positional(usize),
    /// The span of the name, without its `$`.
    Named(Span),
}

#[derive(Debug, Clone, Drop)]
pub enum Precision {
    Count(Count),
    /// `*`: the next implicit position holds the precision.
    Star,
}

/// The type of a placeholder. Those from `Octal` on are parsed, and refused when they are rendered.
#[derive(Debug, Clone, Copy, PartialEq, Eq)]
pub enum FormatType {
    Display,
    Debug,
    /// `x?`
    DebugLowerHex,
    /// `X?`
    DebugUpperHex,
    Octal,
    LowerHex,
    UpperHex,
    Binary,
    LowerExp,
    UpperExp,
    Pointer,
}

impl FormatSpec {
    /// No options, and the type `Display`. It takes no memory.
    pub const fn default() -> FormatSpec
        ensures { result ≡ no_options }
    {
        FormatSpec {
            fill: None,
            align: None,
            sign: None,
            alternate: false,
            zero_pad: false,
            width: None,
            precision: None,
            format_type: FormatType::Display,
        }
    }

    /// Whether no option is given, whatever the type. It takes no memory.
    pub fn is_default(&self) -> bool
        ensures { IsTrue result ↔ HasNoOptions self.now }
    {
        self.fill.is_none()
            && self.align.is_none()
            && self.sign.is_none()
            && !self.alternate
            && !self.zero_pad
            && self.width.is_none()
            && self.precision.is_none()
    }
}

fn span_fits(span: &Span, source: &str) -> bool
    ensures { IsTrue result ↔ SpanFits source.now span.now }
{
    span.start <= span.end
        && source.is_char_boundary(span.start)
        && source.is_char_boundary(span.end)
}

fn argument_fits(argument: &Argument, source: &str) -> bool
    ensures { IsTrue result ↔ ArgumentFits source.now argument.now }
{
    match argument {
        Argument::Named(span) => span_fits(span, source),
        Argument::Implicit | Argument::Positional(_) => true,
    }
}

fn count_fits(count: &Count, source: &str) -> bool
    ensures { IsTrue result ↔ CountFits source.now count.now }
{
    match count {
        Count::Param(CountParam::Named(span)) => span_fits(span, source),
        Count::Param(CountParam::Positional(_)) | Count::Literal(_) => true,
    }
}

fn width_fits(width: &Option<Count>, source: &str) -> bool
    ensures { IsTrue result ↔ MatchOption width.now ⊤ (CountFits source.now) }
{
    match width {
        Some(count) => count_fits(count, source),
        None => true,
    }
}

fn precision_fits(precision: &Option<Precision>, source: &str) -> bool
    ensures { IsTrue result ↔ MatchOption precision.now ⊤ (PrecisionFits source.now) }
{
    match precision {
        Some(Precision::Count(count)) => count_fits(count, source),
        Some(Precision::Star) | None => true,
    }
}

fn segment_fits(segment: &Segment, source: &str) -> bool
    ensures { IsTrue result ↔ SegmentFits source.now segment.now }
{
    match segment {
        Segment::Literal(span) => span_fits(span, source),
        Segment::EscapedOpen | Segment::EscapedClose => true,
        Segment::Placeholder(placeholder) => {
            span_fits(&placeholder.span, source)
                && argument_fits(&placeholder.argument, source)
                && width_fits(&placeholder.spec.width, source)
                && precision_fits(&placeholder.spec.precision, source)
        }
    }
}

impl FormatString {
    /// Whether each span lies in `source`, between characters. It takes no memory.
    pub fn fits(&self, source: &str) -> bool
        ensures { IsTrue result ↔ Fits source.now self.now.segments.items }
    {
        self.segments
            .iter()
            .all(|segment| segment_fits(segment, source))
    }
}
