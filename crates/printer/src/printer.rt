// A template that is parsed once and prints many lists of values.
ghost use Rattle.std.specs.Prelude.{◌≡◌, ◌++◌, ℕ, List, [], map, IfOk, IfErr, OnOk, OnErr, Ok, string_bytes};
ghost use Rattle.values.specs.Datum.{kind_of, datum_of, word_text};
ghost use Rattle.printer.specs.Text.{Prints, IsTemplateOf, RefusesTemplate, RefusesText};
ghost use Rattle.printer.specs.Inner.State.{StandsFor, dialect_of};

use crate::append::{append_formatx, append_printf, append_strfmt};
use crate::keys::PositionNames;
use crate::{Dialect, PrinterError, TemplateFault, TextError};
use sprintf::PrintfError;
use sprintf::parser::{FormatElement, parse_format_string};
use std::alloc::Global;
use std::marker::Model;
use values::{Value, Word};

/// What a template was parsed to.
#[derive(Drop)]
enum Parsed<'t> {
    Printf(Vec<FormatElement<'t>>),
    Strfmt(strfmt::Template<'t>),
    Formatx(formatx::Template),
}

/// A template that is parsed once and prints many lists of values. It lends from the template's text.
#[derive(Drop)]
pub struct Printer<'t> {
    text: &'t str,
    parsed: Parsed<'t>,
    names: PositionNames,
}

impl<'t> Model for Printer<'t> {
    ghost use Rattle.printer.specs.Text.{Printing};
    ghost use Rattle.printer.specs.Inner.State.{IsSound, dialect_of};

    ghost Value = { Printing };

    ghost view = { λ it. record { dialect = dialect_of it.parsed; template = it.text.now; names = it.names } };

    ghost invariant = { λ it. IsSound it.text.now it.parsed };
}

/// The elements of a printf template.
fn parse_printf(alloc: Global, template: &str) -> Result<Parsed<'_>, PrinterError>
    ensures stands { IfOk result (λ parsed. StandsFor parsed template.now) }
    ensures dialect { IfOk result (λ parsed. dialect_of parsed ≡ Dialect.Printf) }
    ensures refused { IfErr result (RefusesTemplate Dialect.Printf template.now) }
{
    match parse_format_string(alloc, template) {
        Ok(elements) => Ok(Parsed::Printf(elements)),
        Err(PrintfError::ParseError) => Err(PrinterError::Template(TemplateFault::Printf)),
        Err(_) => Err(PrinterError::NoMemory),
    }
}

/// The pieces of a strfmt template. A malformed text is one too.
fn parse_strfmt(alloc: Global, template: &str) -> Result<Parsed<'_>, PrinterError>
    ensures stands { IfOk result (λ parsed. StandsFor parsed template.now) }
    ensures dialect { IfOk result (λ parsed. dialect_of parsed ≡ Dialect.Strfmt) }
    ensures refused { IfErr result (RefusesTemplate Dialect.Strfmt template.now) }
{
    let template = strfmt::Template::new(alloc, template)?;
    Ok(Parsed::Strfmt(template))
}

/// The segments of a formatx template.
fn parse_formatx(alloc: Global, template: &str) -> Result<Parsed<'_>, PrinterError>
    ensures stands { IfOk result (λ parsed. StandsFor parsed template.now) }
    ensures dialect { IfOk result (λ parsed. dialect_of parsed ≡ Dialect.Formatx) }
    ensures template { OnOk result (IsTemplateOf Dialect.Formatx template.now) }
    ensures refused { IfErr result (RefusesTemplate Dialect.Formatx template.now) }
{
    match formatx::Template::new(alloc, template) {
        Ok(template) => Ok(Parsed::Formatx(template)),
        Err(formatx::Error::NoMemory) => Err(PrinterError::NoMemory),
        Err(_) => Err(PrinterError::Template(TemplateFault::Formatx)),
    }
}

/// Parses a template in the dialect.
fn parse<'t>(alloc: Global, dialect: Dialect, template: &'t str) -> Result<Parsed<'t>, PrinterError>
    ensures stands { IfOk result (λ parsed. StandsFor parsed template.now) }
    ensures dialect { IfOk result (λ parsed. dialect_of parsed ≡ dialect) }
    ensures template { OnOk result (IsTemplateOf dialect template.now) }
    ensures refused { IfErr result (RefusesTemplate dialect template.now) }
{
    match dialect {
        Dialect::Printf => parse_printf(alloc, template),
        Dialect::Strfmt => parse_strfmt(alloc, template),
        Dialect::Formatx => parse_formatx(alloc, template),
    }
}

impl<'t> Printer<'t> {
    /// Parses a template whose values have no names.
    pub fn new(
        alloc: Global,
        dialect: Dialect,
        template: &'t str,
    ) -> Result<Printer<'t>, PrinterError>
        ensures ok { IfOk result (λ p. p ≡ record { dialect = dialect; template = template.now; names = [] }) }
        ensures template { OnOk result (IsTemplateOf dialect template.now) }
        ensures refused { IfErr result (RefusesTemplate dialect template.now) }
    {
        Printer::new_named(alloc, dialect, template, &[])
    }

    /// Parses a template in which the first values have these names, beside their positions.
    pub fn new_named(
        alloc: Global,
        dialect: Dialect,
        template: &'t str,
        names: &[Word],
    ) -> Result<Printer<'t>, PrinterError>
        ensures ok { IfOk result (λ p. p ≡ record { dialect = dialect; template = template.now; names = map word_text names.now }) }
        ensures template { OnOk result (IsTemplateOf dialect template.now) }
        ensures refused { IfErr result (RefusesTemplate dialect template.now) }
    {
        let names = PositionNames::new(alloc, names)?;
        let parsed = parse(alloc, dialect, template)?;
        Ok(Printer {
            text: template,
            parsed,
            names,
        })
    }

    /// The text of the values.
    pub fn text(&self, alloc: Global, values: &[Value]) -> Result<String, TextError>
        ensures ok { IfOk result (λ text. Prints self.now (map kind_of values.now) (map datum_of values.now) (Ok (string_bytes text))) }
        ensures refused { IfErr result (RefusesText self.now (map kind_of values.now) (map datum_of values.now)) }
    {
        let mut text = String::new(alloc);
        self.text_into(alloc, values, &mut text)?;
        Ok(text)
    }

    /// Appends the text of the values.
    pub fn text_into(
        &self,
        alloc: Global,
        values: &[Value],
        out: &mut String,
    ) -> Result<(), TextError>
        ensures ok { OnOk result ((text : List ℕ) × Prints self.now (map kind_of values.now) (map datum_of values.now) (Ok text) × (string_bytes out.new ≡ string_bytes out.old ++ text)) }
        ensures refused { IfErr result (RefusesText self.now (map kind_of values.now) (map datum_of values.now)) }
        ensures unchanged { OnErr result (string_bytes out.new ≡ string_bytes out.old) }
    {
        match &self.parsed {
            Parsed::Printf(elements) => append_printf(alloc, elements, values, out),
            Parsed::Strfmt(template) => append_strfmt(alloc, template, &self.names, values, out),
            Parsed::Formatx(template) => append_formatx(alloc, template, &self.names, values, out),
        }
    }
}
