// Each expected text is written out by hand.
use columns::Columns;
use numerals::NoMemory;
use pieces::Pieces;
use printer::Dialect;
use row_format::RowFormat;
use sprintf::parser::parse_format_string;
use std::alloc::Global;
use std::test::Fail;
use values::{Kind, Word, parse_kinds};

// A dialect, kinds, a format, a template, a row, and the text; `none` where the template has no pieces. The first two values are
// named `first` and `1`.
const ROWS: &str = "\
    printf\tu64 u64\t%d-%u\t%u %d\t1-20\t1 20\n\
    printf\tu64 u64\t%d-%u\t%u\t1-20\tnone\n\
    printf\tu64 u64\t%d-%u\t%u %d %d\t1-20\tnone\n\
    printf\tu64\t%d.\t100%% of %u{}\t7.\t100% of 7{}\n\
    printf\tu32\t%08u.\t%d\t00000412.\t412\n\
    printf\tu32\t%08x.\t%u\t0000beef.\t48879\n\
    printf\ti64\t%+d.\t%d\t+7.\t7\n\
    printf\ti64\t%+d.\t%d\t-7.\t-7\n\
    printf\ti8 i8\t%+d %+d\t%d%d\t+0 -128\t0-128\n\
    printf\ti64\t%+d.\t% d\t+7.\t 7\n\
    printf\ti64\t%+d.\t%+d\t+7.\t+7\n\
    printf\ti64\t%d.\t<%d>\t-9223372036854775808.\t<-9223372036854775808>\n\
    printf\ti8\t%x\t%d\tfe\t-2\n\
    printf\tu32 word u32 i32\t%d %s %d %d\t%5d|%-8s|%08x|%+d\t42 web 48879 7\t   42|web     |0000beef|+7\n\
    printf\tu32\t%08x\t%08x\t0000beef\t0000beef\n\
    printf\tu32\t%08x\t%8x\t0000beef\t    beef\n\
    printf\tu8\t%d\t%3d\t7\t  7\n\
    printf\tu8\t%d\t%#o\t200\t0310\n\
    printf\tu16\t%d\t%o\t8\t10\n\
    printf\tu16\t%d\t%X\t48879\tBEEF\n\
    printf\tu64\t%d\t%#x\t18446744073709551615\t0xffffffffffffffff\n\
    printf\tusize\t%d\t%2d\t12345\t12345\n\
    printf\ti8\t%d\t%x\t-2\tfe\n\
    printf\ti8\t%d\t%x\t127\t7f\n\
    printf\ti16\t%d\t%x\t-2\tfffe\n\
    printf\ti32\t%d\t%X\t-2\tFFFFFFFE\n\
    printf\ti64\t%d\t%20x\t-2\t    fffffffffffffffe\n\
    printf\tisize\t%d\t%o\t-1\t1777777777777777777777\n\
    printf\ti16\t%d\t%-5d|\t-7\t-7   |\n\
    printf\ti16\t%d\t%05d\t-7\t-0007\n\
    printf\ti16\t%d\t% d\t7\t 7\n\
    printf\tu8\t%d\t%*d\t7\tnone\n\
    printf\tu8\t%d\t%.*d\t7\tnone\n\
    printf\tu8\t%d\t%c\t65\tnone\n\
    printf\tu8\t%d\t%s\t65\tnone\n\
    printf\tword\t%s.\t[%s]\té.\t[é]\n\
    printf\tword\t%s.\t%.3s|\tbytes.\tbyt|\n\
    printf\tword\t%s.\t%.2s|\taé.\ta|\n\
    printf\tword\t%s.\t%2s|\tword.\tword|\n\
    printf\tword\t%s.\t%x\tab.\tnone\n\
    printf\tword\t%s.\t%d\tab.\tnone\n\
    printf\tu8\t%d\t%\t7\tnone\n\
    strfmt\tword u32 word u64\t%s [%08u] %s: %llu bytes\t{2} {3} {0}\tweb [00000007] GET: 512 bytes\tGET 512 web\n\
    strfmt\tu8 u8\t%d %d\t{1}{0}{1}\t1 2\t212\n\
    strfmt\tu8\t%d\t{{{0}}} %d\t7\t{7} %d\n\
    strfmt\tu8\t%d\tno value\t7\tno value\n\
    strfmt\tu8\t%d\t{1}\t7\tnone\n\
    strfmt\tu8\t%d\t{0:>3}\t7\tnone\n\
    strfmt\tu8\t%d\t{n}\t7\tnone\n\
    strfmt\tu8 word\t%d %s\t{1}{first}{0}\t7 w\tw77\n\
    strfmt\tu8 word\t%d %s\t{first:>3}\t7 w\tnone\n\
    strfmt\tu8\t%d\t{}\t7\tnone\n\
    strfmt\tu8\t%d\t{00}\t7\tnone\n\
    strfmt\tu8\t%d\t{0\t7\tnone\n\
    formatx\tu32 i64 word\t%08x %+d %s\t{2} {0} {1}\t0000002a -3 w1\tw1 42 -3\n\
    formatx\tu32 i64 word\t%08x %+d %s\t{} {} {}\t0000002a +3 w1\t42 3 w1\n\
    formatx\tu16 u16 u32\t%05u%05u%08x\t{2} {1} {0}\t00007000120000beef\t48879 12 7\n\
    formatx\ti32 i16\t%+d %+d\t{1}/{0}\t+12 -3\t-3/12\n\
    strfmt\ti64 word\t%+d %s\t{1}{0}{0}\t+9 w\tw99\n\
    formatx\tu8 u8\t%d %d\t{1}{}{}{1}\t1 2\t2122\n\
    formatx\tu8\t%d\t{{{}}}\t7\t{7}\n\
    formatx\tu8\t%d\t{0:03}\t7\tnone\n\
    formatx\tu8\t%d\t{:?}\t7\tnone\n\
    formatx\tu8\t%d\t{1}\t7\tnone\n\
    formatx\tu8\t%d\t{n}\t7\tnone\n\
    formatx\tu8 word\t%d %s\t{first}{1}{}{first}\t7 w\t7w77\n\
    formatx\tu8 word\t%d %s\t{first:?}\t7 w\tnone\n\
    formatx\tu8\t%d\t{\t7\tnone\n\
    formatx\tu16\t%o\t{0}{0}\t177777\t6553565535\n\
";

/// What becomes of a row.
#[derive(Drop)]
enum Printed {
    Text(String),
    NoColumns,
    NoPieces,
    NoRow,
}

impl Printed {
    fn as_str(&self) -> &str {
        match self {
            Printed::Text(text) => text.as_str(),
            Printed::NoColumns => "no columns",
            Printed::NoPieces => "none",
            Printed::NoRow => "no row",
        }
    }
}

/// Reads a row by its columns, and writes it by the template's pieces.
fn print_row(
    alloc: Global,
    dialect: Dialect,
    kinds: &[Kind],
    format: RowFormat,
    template: &str,
    row: &str,
) -> Result<Printed, NoMemory> {
    let names = [Word::new(alloc, "first")?, Word::new(alloc, "1")?];
    let Some(columns) = Columns::new(alloc, &format, kinds)? else {
        return Ok(Printed::NoColumns);
    };
    let Some(pieces) = Pieces::new(alloc, dialect, template, &names, format, kinds)? else {
        return Ok(Printed::NoPieces);
    };
    let mut tokens = Vec::new(alloc);
    if !columns.read(row, &mut tokens)? {
        return Ok(Printed::NoRow);
    }
    let mut text = String::new(alloc);
    pieces.write(row, &tokens, &mut text)?;
    Ok(Printed::Text(text))
}

/// What becomes of the row of a line of the table.
fn read_case(alloc: Global, line: &str) -> Result<Printed, Fail> {
    let (dialect, rest) = line.split_once('\t').ok_or("no dialect")?;
    let (kinds, rest) = rest.split_once('\t').ok_or("no kinds")?;
    let (format, rest) = rest.split_once('\t').ok_or("no format")?;
    let (template, row) = rest.split_once('\t').ok_or("no template")?;
    let dialect = dialect_of(dialect).ok_or("dialect")?;
    let kinds = parse_kinds(alloc, kinds).ok().ok_or("kinds")?;
    let elements = parse_format_string(alloc, format).ok().ok_or("format")?;
    let format = RowFormat::new(alloc, &elements).ok().ok_or("no memory")?;
    let found = print_row(alloc, dialect, &kinds, format, template, row);
    Ok(found.ok().ok_or("no memory")?)
}

fn dialect_of(word: &str) -> Option<Dialect> {
    match word {
        "printf" => Some(Dialect::Printf),
        "strfmt" => Some(Dialect::Strfmt),
        "formatx" => Some(Dialect::Formatx),
        _ => None,
    }
}

#[test]
fn rows_are_printed(rt: HostRuntime) -> Result<(), Fail> {
    for line in ROWS.lines() {
        let (case, want) = line.rsplit_once('\t').ok_or("no text")?;
        assert_eq!(rt; read_case(rt.alloc(), case)?.as_str(), want, "{line}");
    }
    Ok(())
}
