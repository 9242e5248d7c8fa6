// From the elements of a printf format to a template.
ghost use Rattle.std.specs.Prelude.{◌≡◌, ◌++◌, ◌+◌, ◌≤◌, ◌<◌, ◌^◌, ◌∷◌, List, encode_utf8, Ok, IfOk, IfErr, OnOk, length, string_bytes};
ghost use Rattle.row_format.specs.Planned.{escaped, escaped_byte};
ghost use Rattle.translation.specs.Inner.Options.{field_text, StepsTo};
ghost use Rattle.translation.specs.Translated.{translated, translated_from, IsRefusal};

use crate::field::Field;
use crate::table::translate_field;
use crate::{Target, TranslateError};
use sprintf::parser::{ConversionType, FormatElement};
use std::alloc::Global;
use values::Kind;

/// The template that prints what the format prints, over values of these kinds.
pub fn translate(
    alloc: Global,
    elements: &[FormatElement<'_>],
    kinds: &[Kind],
    target: Target,
) -> Result<String, TranslateError>
    ensures ok { IfOk result (λ text. translated elements.now kinds.now target ≡ Ok (string_bytes text)) }
    ensures refused { IfErr result (λ why. IsRefusal (translated elements.now kinds.now target) why) }
{
    let mut text = String::new(alloc);
    let mut left_kinds = kinds;
    let mut place = 1;
    for element in elements {
        let number = kinds.len() - left_kinds.len();
        match push_element(&mut text, element, place, number, left_kinds, target) {
            Ok(left) => left_kinds = left,
            Err(why) => return Err(why),
        }
        place += 1;
    }
    if left_kinds.is_empty() {
        Ok(text)
    } else {
        Err(TranslateError::Element { place })
    }
}

/// Appends what stands for the element at this place, and gives the kinds that are left; the first has this number.
fn push_element<'k>(
    text: &mut String,
    element: &FormatElement<'_>,
    place: usize,
    number: usize,
    kinds: &'k [Kind],
    target: Target,
) -> Result<&'k [Kind], TranslateError>
    ensures steps { IfOk result (λ left. StepsTo target place number (string_bytes text.old) (string_bytes text.new) element.now kinds.entry.now left.now) }
    ensures fewer { IfOk result (λ left. length left.now ≤ length kinds.entry.now) }
    ensures refused { IfErr result (λ why. (rest : List FormatElement) → IsRefusal (translated_from target place number (element.now ∷ rest) kinds.entry.now) why) }
{
    match element {
        FormatElement::Verbatim(literal) => {
            push_escaped(text, literal)?;
            Ok(kinds)
        }
        FormatElement::Format(field) => {
            if let ConversionType::PercentSign = field.conversion_type {
                text.push('%')?;
                return Ok(kinds);
            }
            let Some((kind, left)) = kinds.split_first() else {
                return Err(TranslateError::Element { place });
            };
            let Some(field) = translate_field(target, field, *kind) else {
                return Err(TranslateError::Element { place });
            };
            field.push(text, number, target)?;
            Ok(left)
        }
    }
}

/// Appends a text with its braces doubled.
fn push_escaped(text: &mut String, literal: &str) -> Result<(), TranslateError>
    ensures ok { OnOk result (string_bytes text.new ≡ string_bytes text.old ++ escaped literal.now) }
    ensures memory { IfErr result (λ e. e ≡ TranslateError.NoMemory) }
{
    'characters: for character in literal.chars() {
        push_character(text, character)?;
    }
    Ok(())
}

/// Appends a character, a brace twice.
fn push_character(text: &mut String, character: char) -> Result<(), TranslateError>
    ensures ok { OnOk result (string_bytes text.new ≡ string_bytes text.old ++ escaped (encode_utf8 character)) }
    ensures memory { IfErr result (λ e. e ≡ TranslateError.NoMemory) }
{
    if character == '{' {
        text.push_str("{{")?;
    } else if character == '}' {
        text.push_str("}}")?;
    } else {
        text.push(character)?;
    }
    Ok(())
}
