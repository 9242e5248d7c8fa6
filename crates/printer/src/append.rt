// The text of values, by a parsed template of each dialect.
ghost use Rattle.std.specs.Prelude.{◌≡◌, ◌⊎◌, ◌++◌, codes, IsUtf8, map, string_bytes};
ghost use Rattle.strfmt.specs.Fault.{IsFault, no_value};
ghost use Rattle.strfmt.specs.Text.{filled_by};
ghost use Rattle.strfmt.specs.Values.{Displays};
ghost use Rattle.values.specs.Datum.{datum_of, each_of, kind_of};
ghost use Rattle.values.specs.Templates.{strfmt_meaning};
ghost use Rattle.printer.specs.Text.{PrintsBy, value_at_key};
ghost use Rattle.printer.specs.declared.dialect.Dialect.TheVariants as Of;
ghost use Rattle.printer.specs.Inner.Appending.{AppendsWhere, ElementsPrint};

use crate::TextError;
use crate::keys::{PositionNames, value_at};
use crate::told::{formatx_told, printf_told, strfmt_told};
use sprintf::parser::FormatElement;
use sprintf::vsprintfp_into;
use std::alloc::Global;
use strfmt::{DisplayStr, FmtError, Formatter};
use values::Value;

/// Appends what the elements of a printf format print.
pub(crate) fn append_printf(
    alloc: Global,
    elements: &[FormatElement<'_>],
    values: &[Value],
    out: &mut String,
) -> Result<(), TextError>
    ensures { AppendsWhere (ElementsPrint elements.now (map kind_of values.now) (map datum_of values.now)) (string_bytes out.old) (string_bytes out.new) result }
{
    match vsprintfp_into(alloc, out, elements, values) {
        Ok(()) => Ok(()),
        Err(error) => Err(printf_told(error)),
    }
}

/// The error of a key without a value.
fn no_value(alloc: Global, key: &str) -> FmtError
    ensures { (result ≡ FmtError.NoMemory) ⊎ IsFault result (no_value key.now) }
{
    format!(in alloc; "Invalid key: {key}").map_or(FmtError::NoMemory, FmtError::KeyError)
}

/// Displays the value of the formatter's key.
fn display_at(
    alloc: Global,
    names: &PositionNames,
    values: &[Value],
    f: &mut Formatter<'_>,
) -> strfmt::Result<()>
    ensures { Displays (filled_by (value_at_key 0 names.now (each_of strfmt_meaning (map kind_of values.now) (map datum_of values.now)) f.old.key) f.old) f.old result f.new }
{
    match value_at(names, values, f.key) {
        Some(value) => value.display_str(f),
        None => Err(no_value(alloc, f.key)),
    }
}

/// Appends what a strfmt template prints.
pub(crate) fn append_strfmt(
    alloc: Global,
    template: &strfmt::Template<'_>,
    names: &PositionNames,
    values: &[Value],
    out: &mut String,
) -> Result<(), TextError>
    requires { IsUtf8 template.now }
    ensures { AppendsWhere (PrintsBy Of.Strfmt template.now names.now (map kind_of values.now) (map datum_of values.now)) (string_bytes out.old) (string_bytes out.new) result }
{
    let mut display = |f: &mut Formatter<'_>| -> strfmt::Result<()>
        ensures { Displays (filled_by (value_at_key 0 names.entry.now (each_of strfmt_meaning (map kind_of values.entry.now) (map datum_of values.entry.now)) f.old.key) f.old) f.old result f.new }
    { display_at(alloc, names, values, f) };
    match template.fill(alloc, out, &mut display) {
        Ok(()) => Ok(()),
        Err(error) => Err(strfmt_told(error)),
    }
}

/// Appends what a formatx template prints. A value that isn't there is a fault.
pub(crate) fn append_formatx(
    alloc: Global,
    template: &formatx::Template,
    names: &PositionNames,
    values: &[Value],
    out: &mut String,
) -> Result<(), TextError>
    ensures { AppendsWhere (PrintsBy Of.Formatx template.now names.now (map kind_of values.now) (map datum_of values.now)) (string_bytes out.old) (string_bytes out.new) result }
{
    match template.render_into(alloc, out, values, names.positions(), true) {
        Ok(()) => Ok(()),
        Err(error) => Err(formatx_told(error)),
    }
}
