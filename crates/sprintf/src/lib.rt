//! Formats of `printf`, parsed and printed over values.
#![tactic(auto)]

ghost use Rattle.std.specs.Prelude.{◌≡◌, ◌⊎◌, ◌++◌, ℕ, List, map, drop, string_bytes, IfOk, IfErr, OnOk, Ok, Err};
ghost use Rattle.numerals.specs.Answer.{IsAnswer, AppendsAnswer};
ghost use Rattle.sprintf.specs.Text.{printed, param_of, stars, value_text, field_text, wanted, PrintsFormat, RefusesFormat};
ghost use Rattle.sprintf.specs.Inner.Reading.{Starts};

mod arg;
mod field;
mod format;
mod laws;
pub mod parser;

pub use arg::Arg;
pub use format::Printf;
pub use laws::{
    carried_refuse_types, fills_its_width, one_element_list, one_value, takes_faults_from_values,
};
pub use parser::{ConversionSpecifier, ConversionType, NumericParam};
use parser::{FormatElement, parse_format_string};
use std::alloc::{AllocError, Global};
use thiserror::Error;

/// Why a format wasn't printed.
#[derive(Debug, Clone, PartialEq, Eq, Drop, Error)]
pub enum PrintfError {
    /// The format isn't in the grammar.
    #[error("Error parsing the format string")]
    ParseError,
    /// A value doesn't take its conversion, or gives no number to a `*`.
    #[error("Incorrect type passed as an argument")]
    WrongType,
    /// All elements were printed, and arguments are left.
    #[error("Too many arguments passed")]
    TooManyArgs,
    /// An element wants an argument, and none is left.
    #[error("Too few arguments passed")]
    NotEnoughArgs,
    /// A width or precision was handed to a value while it was still `*`.
    #[error("Other error (should never happen)")]
    Unknown,
    /// There was no memory.
    #[error("no memory")]
    NoMemory,
}

impl From<AllocError> for PrintfError {
    ghost use Rattle.sprintf.specs.declared.PrintfError.TheVariants.{NoMemory};

    ghost from_gives = { λ _ fault. fault ≡ NoMemory };

    fn from(_: AllocError) -> PrintfError {
        PrintfError::NoMemory
    }
}

impl From<numerals::NoMemory> for PrintfError {
    ghost use Rattle.sprintf.specs.declared.PrintfError.TheVariants.{NoMemory};

    ghost from_gives = { λ _ fault. fault ≡ NoMemory };

    fn from(_: numerals::NoMemory) -> PrintfError {
        PrintfError::NoMemory
    }
}

/// An answer, or why a format wasn't printed.
pub type Result<T> = std::result::Result<T, PrintfError>;

/// Prints the arguments by the format, taken from left to right.
///
/// It is [`vsprintfp`] over the elements of the format, its refusals included.
pub fn vsprintf<P: Printf>(alloc: Global, fmt: &str, args: &[P]) -> Result<String>
    ensures ok { IfOk result (λ t. PrintsFormat fmt.now (map P.meaning args.now) (string_bytes t)) }
    ensures err { IfErr result (λ e. RefusesFormat fmt.now (map P.meaning args.now) e ⊎ (e ≡ PrintfError.NoMemory)) }
{
    let elements = parse_format_string(alloc, fmt)?;
    vsprintfp(alloc, &elements, args)
}

/// Prints the arguments by elements that were parsed before.
///
/// For each field that isn't `%%` it takes the width if it is `*`, then the precision if it is `*`, then the value.
/// A caller's own `Printf` may answer any fault, and that is passed on.
pub fn vsprintfp<P: Printf>(
    alloc: Global,
    elements: &[FormatElement<'_>],
    args: &[P],
) -> Result<String>
    ensures { IsAnswer string_bytes PrintfError.NoMemory (printed elements.now (map P.meaning args.now)) result }
{
    let mut out = String::new(alloc);
    vsprintfp_into(alloc, &mut out, elements, args)?;
    Ok(out)
}

/// Appends what [`vsprintfp`] answers. After a refusal `out` is as before.
pub fn vsprintfp_into<P: Printf>(
    alloc: Global,
    out: &mut String,
    elements: &[FormatElement<'_>],
    args: &[P],
) -> Result<()>
    ensures { AppendsAnswer PrintfError.NoMemory (printed elements.now (map P.meaning args.now)) (string_bytes out.old) (string_bytes out.new) result }
{
    let before = out.len();
    match print_elements(alloc, out, elements, args) {
        Ok(()) => Ok(()),
        Err(fault) => {
            out.truncate(before);
            Err(fault)
        }
    }
}

/// Appends the elements, after a refusal those in front of it.
fn print_elements<P: Printf>(
    alloc: Global,
    out: &mut String,
    elements: &[FormatElement<'_>],
    args: &[P],
) -> Result<()>
    ensures ok { OnOk result ((text : List ℕ) × (printed elements.now (map P.meaning args.now) ≡ Ok text) × (string_bytes out.new ≡ string_bytes out.old ++ text)) }
    ensures err { IfErr result (λ e. (printed elements.now (map P.meaning args.now) ≡ Err e) ⊎ (e ≡ PrintfError.NoMemory)) }
    ensures front { Starts (string_bytes out.old) (string_bytes out.new) }
{
    let mut rest = args;
    for element in elements {
        match element {
            FormatElement::Verbatim(text) => out.push_str(text)?,
            FormatElement::Format(spec) => rest = print_field(alloc, out, spec, rest)?,
        }
    }
    if rest.is_empty() {
        Ok(())
    } else {
        Err(PrintfError::TooManyArgs)
    }
}

/// Appends one field, and gives the arguments that are left.
fn print_field<'p, P: Printf>(
    alloc: Global,
    out: &mut String,
    spec: &ConversionSpecifier,
    args: &'p [P],
) -> Result<&'p [P]>
    ensures text { AppendsAnswer PrintfError.NoMemory (field_text spec.now (map P.meaning args.entry.now)) (string_bytes out.old) (string_bytes out.new) result }
    ensures left { IfOk result (λ left. map P.meaning left.now ≡ drop (wanted spec.now) (map P.meaning args.entry.now)) }
{
    if let ConversionType::PercentSign = spec.conversion_type {
        out.push_str("%")?;
        return Ok(args);
    }
    let (width, after_width) = take_param(spec.width, args)?;
    let (precision, rest) = take_param(spec.precision, after_width)?;
    let spec = ConversionSpecifier {
        width,
        precision,
        ..*spec
    };
    print_value(alloc, out, &spec, rest)
}

/// A width or a precision as a number, and the arguments that are left.
fn take_param<P: Printf>(param: NumericParam, args: &[P]) -> Result<(NumericParam, &[P])>
    ensures ok { IfOk result (λ r. param_of param (map P.meaning args.now) ≡ Ok r.0) }
    ensures left { IfOk result (λ r. map P.meaning r.1.now ≡ drop (stars param) (map P.meaning args.now)) }
    ensures err { IfErr result (λ e. param_of param (map P.meaning args.now) ≡ Err e) }
{
    let NumericParam::FromArgument = param else {
        return Ok((param, args));
    };
    let (value, left) = args.split_first().ok_or(PrintfError::NotEnoughArgs)?;
    let number = value.as_int().ok_or(PrintfError::WrongType)?;
    Ok((NumericParam::Literal(number), left))
}

/// Appends the next argument under a specification without `*`, and gives the arguments that are left.
fn print_value<'p, P: Printf>(
    alloc: Global,
    out: &mut String,
    spec: &ConversionSpecifier,
    args: &'p [P],
) -> Result<&'p [P]>
    ensures text { AppendsAnswer PrintfError.NoMemory (value_text spec.now (map P.meaning args.entry.now)) (string_bytes out.old) (string_bytes out.new) result }
    ensures left { IfOk result (λ left. map P.meaning left.now ≡ drop 1 (map P.meaning args.entry.now)) }
{
    let (first, left) = args.split_first().ok_or(PrintfError::NotEnoughArgs)?;
    first.format_into(alloc, spec, out)?;
    Ok(left)
}

/// Prints the arguments by the format: `sprintf!(alloc, fmt, a, b)`.
///
/// Each argument goes in by `Arg::from`, so a `String` as `&String`. An argument of a type of your own goes
/// through [`vsprintf`].
#[macro_export]
macro_rules! sprintf {
    ($alloc:expr, $fmt:expr $(,)?) => {{
        let args: [$crate::Arg<'_>; 0] = [];
        $crate::vsprintf($alloc, $fmt, &args)
    }};
    ($alloc:expr, $fmt:expr, $($arg:expr),+ $(,)?) => {
        $crate::vsprintf($alloc, $fmt, &[$($crate::Arg::from($arg)),+])
    };
}
