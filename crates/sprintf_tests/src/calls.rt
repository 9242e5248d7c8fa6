// Calls on values of each type, on a caller's own, and by the macro.
use sprintf::parser::parse_format_string;
use sprintf::{
    ConversionSpecifier, ConversionType, NumericParam, Printf, PrintfError, sprintf, vsprintf,
    vsprintfp_into,
};
use std::alloc::Global;
use std::process::Abort;
use std::test::Fail;

/// A specification without flags.
fn plain(conversion_type: ConversionType, width: NumericParam) -> ConversionSpecifier {
    ConversionSpecifier {
        alt_form: false,
        zero_pad: false,
        left_adj: false,
        space_sign: false,
        force_sign: false,
        width,
        precision: NumericParam::Literal(6),
        conversion_type,
    }
}

/// The values print as this text under the format.
fn prints<P: Printf>(
    rt: &impl Abort,
    alloc: Global,
    format: &str,
    values: &[P],
    want: &str,
) -> Result<(), Fail> {
    let text = vsprintf(alloc, format, values)?;
    assert_eq!(rt; text.as_str(), want);
    Ok(())
}

#[test]
fn values_print_themselves(rt: HostRuntime) -> Result<(), Fail> {
    let alloc = rt.alloc();
    prints(&rt, alloc, "%4d|", &[1u8], "   1|")?;
    prints(&rt, alloc, "%4d|", &[2u16], "   2|")?;
    prints(&rt, alloc, "%4d|", &[3u32], "   3|")?;
    prints(&rt, alloc, "%4d|", &[4u64], "   4|")?;
    prints(&rt, alloc, "%4d|", &[5usize], "   5|")?;
    prints(&rt, alloc, "%4d|", &[-1i8], "  -1|")?;
    prints(&rt, alloc, "%4d|", &[-2i16], "  -2|")?;
    prints(&rt, alloc, "%4d|", &[-3i32], "  -3|")?;
    prints(&rt, alloc, "%4d|", &[-4i64], "  -4|")?;
    prints(&rt, alloc, "%4d|", &[-5isize], "  -5|")
}

#[test]
fn texts_print_themselves(rt: HostRuntime) -> Result<(), Fail> {
    let alloc = rt.alloc();
    prints(&rt, alloc, "%4c|", &['a'], "   a|")?;
    prints(&rt, alloc, "%4s|", &["ab"], "  ab|")?;
    let text = String::from_str(alloc, "cd")?;
    prints(&rt, alloc, "%-4s|", &[text], "cd  |")
}

#[test]
fn a_boxed_object_is_its_value(rt: HostRuntime) -> Result<(), Fail> {
    let boxed: Box<dyn Printf> = Box::new(rt.alloc(), 7u8)?;
    assert_eq!(rt; boxed.as_int(), Some(7));
    prints(&rt, rt.alloc(), "%3d", &[boxed], "  7")
}

#[test]
fn a_width_is_still_to_come(rt: HostRuntime) {
    let star = plain(ConversionType::DecInt, NumericParam::FromArgument);
    let number = Printf::format(&5u64, rt.alloc(), &star);
    assert_eq!(rt; number, Err(PrintfError::Unknown));
    let letter = Printf::format(&'a', rt.alloc(), &star);
    assert_eq!(rt; letter, Err(PrintfError::WrongType));
}

#[test]
fn the_macro_takes_arguments(rt: HostRuntime) -> Result<(), Fail> {
    let alloc = rt.alloc();
    let name = String::from_str(alloc, "forty-two")?;
    let text = sprintf!(alloc, "%s = %*d", &name, 4u8, 42i64)?;
    assert_eq!(rt; text.as_str(), "forty-two =   42");
    let text = sprintf!(alloc, "%*%")?;
    assert_eq!(rt; text.as_str(), "%");
    Ok(())
}

/// A caller's own value, which refuses each field with a fault of its own choice.
#[derive(Drop)]
struct Refusing;

impl Printf for Refusing {
    ghost use Rattle.std.specs.Prelude.{Err, None};
    ghost use Rattle.sprintf.specs.declared.PrintfError.TheVariants.{TooManyArgs};

    ghost meaning = { λ _. record { text = λ _. Err TooManyArgs; int = None } };

    fn format(&self, alloc: Global, spec: &ConversionSpecifier) -> sprintf::Result<String> {
        let _ = alloc;
        let _ = spec;
        Err(PrintfError::TooManyArgs)
    }

    fn as_int(&self) -> Option<i32> {
        None
    }
}

#[test]
fn a_fault_of_a_callers_value_is_passed_on(rt: HostRuntime) {
    let answer = vsprintf(rt.alloc(), "%d", &[Refusing]);
    assert_eq!(rt; answer, Err(PrintfError::TooManyArgs));
}

/// A caller's own value, which makes its text in memory of its own.
#[derive(Drop)]
struct Yes;

impl Printf for Yes {
    ghost use Rattle.std.specs.Prelude.{Ok, None, codes};

    ghost meaning = { λ _. record { text = λ _. Ok (codes "yes"); int = None } };

    fn format(&self, alloc: Global, spec: &ConversionSpecifier) -> sprintf::Result<String> {
        let _ = spec;
        Ok(String::from_str(alloc, "yes")?)
    }

    fn as_int(&self) -> Option<i32> {
        None
    }
}

#[test]
fn a_callers_value_is_printed(rt: HostRuntime) -> Result<(), Fail> {
    prints(&rt, rt.alloc(), "%d, %s", &[Yes, Yes], "yes, yes")
}

#[test]
fn a_text_grows(rt: HostRuntime) -> Result<(), Fail> {
    let alloc = rt.alloc();
    let elements = parse_format_string(alloc, "%#06x|")?;
    let mut text = String::from_str(alloc, "é ")?;
    vsprintfp_into(alloc, &mut text, &elements, &[16u8])?;
    assert_eq!(rt; text.as_str(), "é 0x0010|");
    let answer = vsprintfp_into(alloc, &mut text, &elements, &[16u8, 17u8]);
    assert_eq!(rt; answer, Err(PrintfError::TooManyArgs));
    assert_eq!(rt; text.as_str(), "é 0x0010|");
    let three = plain(ConversionType::DecInt, NumericParam::Literal(3));
    7u64.format_into(alloc, &three, &mut text)?;
    assert_eq!(rt; text.as_str(), "é 0x0010|  7");
    Ok(())
}

#[test]
fn faults_have_texts(rt: HostRuntime) -> Result<(), Fail> {
    'faults: for (fault, want) in [
        (PrintfError::ParseError, "Error parsing the format string"),
        (
            PrintfError::WrongType,
            "Incorrect type passed as an argument",
        ),
        (PrintfError::TooManyArgs, "Too many arguments passed"),
        (PrintfError::NotEnoughArgs, "Too few arguments passed"),
        (PrintfError::Unknown, "Other error (should never happen)"),
        (PrintfError::NoMemory, "no memory"),
    ] {
        let text = fault.to_string(rt.alloc())?;
        assert_eq!(rt; text.as_str(), want);
    }
    Ok(())
}
