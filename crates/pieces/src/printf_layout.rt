// Printf formats as layouts.
ghost use Rattle.std.specs.Prelude.{◌≡◌, ◌∷◌, List, IfOk, IfSome, IsTrue, slice_get, Some, ℕ};
ghost use Rattle.sprintf.specs.declared.parser.FormatElement.{FormatElement as ElementOf};
ghost use Rattle.sprintf.specs.declared.parser.FormatElement.TheVariants.{Format};
ghost use Rattle.printer.specs.declared.dialect.Dialect.TheVariants as Of;
ghost use Rattle.pieces.specs.Inner.Printf.{HasFormUnder, HasNumbers, IsFormUnder, IsPlain, IsPlainNumber, IsPlainWord, IsPlusNumber, IsWhole, Moves};
ghost use Rattle.pieces.specs.Inner.Sound.{StandsFor};

use crate::layout::{Form, Layout};
use crate::source::Source;
use numerals::NoMemory;
use sprintf::parser::{FormatElement, parse_format_string};
use sprintf::{ConversionSpecifier, ConversionType, NumericParam, PrintfError};
use std::alloc::Global;
use values::Kind;

/// Whether the field is a number's without width and flags. A precision that is a number has no effect on it.
fn is_plain_number(field: &ConversionSpecifier) -> bool
    ensures { IsTrue result → IsPlainNumber field.now }
{
    let ConversionType::DecInt = field.conversion_type else {
        return false;
    };
    let NumericParam::Literal(0) = field.width else {
        return false;
    };
    let NumericParam::Literal(_) = field.precision else {
        return false;
    };
    !field.force_sign && !field.space_sign
}

/// Whether the field is a number's without width that prints a plus sign in front of numbers that are not negative.
pub(crate) fn is_plus_number(field: &ConversionSpecifier) -> bool
    ensures { IsTrue result → IsPlusNumber field.now }
{
    let ConversionType::DecInt = field.conversion_type else {
        return false;
    };
    let NumericParam::Literal(0) = field.width else {
        return false;
    };
    field.force_sign
}

/// Whether the field is a word's without width and precision.
fn is_plain_word(field: &ConversionSpecifier) -> bool
    ensures { IsTrue result → IsPlainWord field.now }
{
    let ConversionType::String = field.conversion_type else {
        return false;
    };
    let NumericParam::Literal(0) = field.width else {
        return false;
    };
    let NumericParam::Literal(2147483647) = field.precision else {
        return false;
    };
    true
}

/// Whether the field prints values of the form plainly.
fn is_plain(field: &ConversionSpecifier, form: Form) -> bool
    ensures { IsTrue result → IsPlain form field.now }
{
    match form {
        Form::Number => is_plain_number(field),
        Form::Signed => is_plain_number(field),
        Form::Copied => is_plain_word(field),
        Form::WithoutPlus | Form::Field { .. } => false,
    }
}

/// Whether the field's width and precision are numbers, so that it takes one value.
fn has_numbers(field: &ConversionSpecifier) -> bool
    ensures { IsTrue result → HasNumbers field.now }
{
    let NumericParam::Literal(_) = field.width else {
        return false;
    };
    let NumericParam::Literal(_) = field.precision else {
        return false;
    };
    true
}

/// The plain form of values of the kind, if the field prints them plainly.
fn plain_form(field: &ConversionSpecifier, kind: Kind) -> Option<Form>
    ensures { IfSome result (IsFormUnder field.now kind) }
{
    let form = Form::of(kind)?;
    if is_plain(field, form) {
        Some(form)
    } else {
        None
    }
}

/// The form in which the field prints values of the kind with its width and its flags; None where it may refuse them.
fn field_form(field: &ConversionSpecifier, kind: Kind) -> Option<Form>
    ensures { IfSome result (IsFormUnder field.now kind) }
{
    let source = Source::of(field.conversion_type, kind)?;
    if has_numbers(field) {
        Some(Form::Field {
            source,
            field: *field,
        })
    } else {
        None
    }
}

/// The form in which the field prints the value at a place; None where it may refuse it, or takes more than that value.
pub(crate) fn form_under(field: &ConversionSpecifier, kinds: &[Kind], place: usize) -> Option<Form>
    ensures { IfSome result (HasFormUnder field.now kinds.now place) }
{
    let kind = *kinds.get(place)?;
    match plain_form(field, kind) {
        Some(form) => Some(form),
        None => field_form(field, kind),
    }
}

/// Takes a field's value in, and gives the place of the next one; None where the field has no form.
fn push_value(
    alloc: Global,
    layout: &mut Layout,
    field: &ConversionSpecifier,
    kinds: &[Kind],
    place: usize,
) -> Result<Option<usize>, NoMemory>
    ensures { IfOk result (λ found. IfSome found (λ next. (rest : List ElementOf) → Moves kinds.now layout.old (Format field.now ∷ rest) place layout.new rest next)) }
{
    let Some(form) = form_under(field, kinds, place) else {
        return Ok(None);
    };
    layout.push_value(alloc, form, place)?;
    Ok(Some(place + 1))
}

/// Takes an element in, and gives the place of the next value; None where it is a field without a form.
fn push_element(
    alloc: Global,
    layout: &mut Layout,
    element: &FormatElement<'_>,
    kinds: &[Kind],
    place: usize,
) -> Result<Option<usize>, NoMemory>
    ensures { IfOk result (λ found. IfSome found (λ next. (rest : List ElementOf) → Moves kinds.now layout.old (element.now ∷ rest) place layout.new rest next)) }
{
    match element {
        FormatElement::Verbatim(text) => {
            layout.push_text(text)?;
            Ok(Some(place))
        }
        FormatElement::Format(field) => {
            if let ConversionType::PercentSign = field.conversion_type {
                layout.push_text("%")?;
                return Ok(Some(place));
            }
            push_value(alloc, layout, field, kinds, place)
        }
    }
}

/// The layout of elements, where each field has a form and its value.
fn lay_out_elements(
    alloc: Global,
    elements: &[FormatElement<'_>],
    kinds: &[Kind],
) -> Result<Option<Layout>, NoMemory>
    ensures { IfOk result (λ found. IfSome found (IsWhole kinds.now elements.now)) }
{
    let mut layout = Layout::new(alloc);
    let mut place = 0;
    let mut rest = elements;
    'elements: while let [element, after @ ..] = rest {
        let Some(next) = push_element(alloc, &mut layout, element, kinds, place)? else {
            return Ok(None);
        };
        place = next;
        rest = after;
    }
    if place == kinds.len() {
        Ok(Some(layout))
    } else {
        Ok(None)
    }
}

/// The layout of a printf format, where each field has a form and its value.
pub(crate) fn lay_out(
    alloc: Global,
    template: &str,
    kinds: &[Kind],
) -> Result<Option<Layout>, NoMemory>
    ensures { IfOk result (λ found. IfSome found (λ layout. (names : List (List ℕ)) → StandsFor Of.Printf template.now names kinds.now layout)) }
{
    match parse_format_string(alloc, template) {
        Ok(elements) => lay_out_elements(alloc, &elements, kinds),
        Err(PrintfError::NoMemory) => Err(NoMemory),
        Err(_) => Ok(None),
    }
}
