//! What holds of every numeral, as contracts that callers can cite.
ghost use Rattle.numerals.specs.Laws.{OneNumeral, NumeralIsStd, LongerNumeral, NumeralReadsBack, NumeralOfValue};

/// A number has exactly one numeral in each base, and `numeral` is it.
pub fn one_numeral()
    ensures { OneNumeral }
{}

/// Below 2^64 it is what the standard library's formatting writes.
pub fn numeral_is_std()
    ensures { NumeralIsStd }
{}

/// A greater number has no shorter numeral.
pub fn longer_numeral()
    ensures { LongerNumeral }
{}

/// A numeral is a text of digits that stands for its number.
pub fn numeral_reads_back()
    ensures { NumeralReadsBack }
{}

/// A text of digits in one case of letters, without a leading zero, is the numeral of what it stands for.
pub fn numeral_of_value()
    ensures { NumeralOfValue }
{}
