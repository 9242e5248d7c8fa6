// Laws of translations: no function does anything, and each clause is a law.
ghost use Rattle.translation.specs.Laws.{PrintsTheSame, SuitsIsConverts};

use crate::Target;
use numerals::numeral_is_std;

/// A template of formatx that a printf format is translated to prints what the format prints.
pub fn formatx_prints_the_same()
    ensures { PrintsTheSame Target.Formatx }
{
    numeral_is_std();
}

/// A template of strfmt that a printf format is translated to prints what the format prints.
pub fn strfmt_prints_the_same()
    ensures { PrintsTheSame Target.Strfmt }
{
    numeral_is_std();
}

/// The table allows just the conversions for a kind that rows allow.
pub fn suits_is_converts()
    ensures { SuitsIsConverts }
{}
