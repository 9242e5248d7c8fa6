// The laws of the formats. Each function does nothing: its contract is the law.
ghost use Rattle.sprintf.specs.Laws.{CarriedRefuseTypes, FillsItsWidth, HasOneElementList, HasOneValue, TakesFaultsFromValues};

/// A text is the format of at most one list of elements.
pub fn one_element_list()
    ensures { HasOneElementList }
{}

/// [`crate::vsprintf`] and [`crate::vsprintfp`] over the parsed elements have one value, faults included:
/// all lists of elements that a text spells print the same over all values.
pub fn one_value()
    ensures { HasOneValue }
{}

/// A field that a carried value fills has at least its width in bytes.
pub fn fills_its_width()
    ensures { FillsItsWidth }
{}

/// A fault other than `WrongType`, `NotEnoughArgs` and `TooManyArgs` comes only where a value answers it: over values
/// that never answer `Unknown` or `ParseError`, printing never does.
pub fn takes_faults_from_values()
    ensures { TakesFaultsFromValues }
{}

/// A carried value refuses with `WrongType` alone, once its width and its precision are numbers.
pub fn carried_refuse_types()
    ensures { CarriedRefuseTypes }
{}
