// The other commands: what they write and tell, and which words are none.
use crate::support::{run_table, sink, source};
use reformat::{run, sample_input};
use std::test::Fail;

const PLANS: &str = "\
plan~u32^%-5u|^anything~0~{d}|^~
plan~word u32 word u64^%s [%08u] %s: %llu bytes^~0~{} [{d}] {}: {d} bytes^~
plan~i32 i32^%d%+d^~0~{d}{d}^~
plan~i32 u32^%08x%08x^~0~{8x}{8x}^~
plan~u8 u8^%#X;%o^~0~0X{x};{d}^~
plan~word i64^%s%25d^~0~{s}{d}^~
plan~i8 word^%x:%s.^~0~{x}:{}.^~
plan~u8 i8^%d%4d^~0~{d}{d}^~
plan~char u8^%c%4d^~0~{s}{d}^~
plan~u8 char^%d%2c^~0~{d}{s}^~
plan~^{%%}^x^~0~{{%}}^~
plan~u8^%d~0~{d}^~
plan~~1~~line 1: bad header^
plan~f64^%d^~1~~line 1: bad header^
plan~u8^~1~~line 2: bad header^
plan~u8^%y^~1~~line 2: not a printf format^
plan~word^%.3s^~1~~line 2: field 1: lossy^";

const SCANS: &str = "\
scan {d}-{d}~1-2^^x^~0~1\t2^^^~
scan {d}-{d}~~0~~
scan {d}-{d}~1-2~0~1\t2^~
scan {s}{s}~a b^c^~0~a\tb^c^~
scan {/[a-c]+/}{d}~abc12^~0~abc\t12^~
scan x~x^y^~0~^^~";

const TRANSLATIONS: &str = "\
translate formatx~u32 i32^%#010x %5d^~0~0x{0:0>8x?} {1:>5}^~
translate formatx~u32 i32^%#010x %5d^x^~0~0x{0:0>8x?} {1:>5}^~
translate strfmt~u32 i32^%#010x %5d^~1~~line 2: element 1: no translation^
translate strfmt~word word^%-8s|%.3s~0~{0:<8}|{1:.3}^~
translate formatx~word word^%-8s|%.3s~0~{0:<8}|{1:.3}^~
translate strfmt~u8^%o^~0~{0:o}^~
translate formatx~u8^%o^~1~~line 2: element 1: no translation^
translate formatx~^{%%}^~0~{{%}}^~
translate formatx~u128^%d^~1~~line 1: bad header^
translate formatx~u8^~1~~line 2: bad header^
translate strfmt~u8^%y^~1~~line 2: not a printf format^
translate strfmt~~1~~line 1: bad header^";

const SAMPLES: &str = "\
sample 0~x^~0~rows 0 in 45 out 0 sum 0^~
sample 1~x^~0~rows 1 in 60 out 7 sum 337^~
sample 2~x^~0~rows 2 in 81 out 30 sum 1487^~
sample 1000~x^~0~rows 1000 in 24819 out 26009 sum 1331323^~";

const NO_COMMANDS: &str = "\
~u64^~2~~usage: reformat rewrite | plan | scan FORMAT | translate strfmt|formatx | sample N^
rewrite x~u64^~2~~usage: reformat rewrite | plan | scan FORMAT | translate strfmt|formatx | sample N^
plan x~u64^~2~~usage: reformat rewrite | plan | scan FORMAT | translate strfmt|formatx | sample N^
scan~u64^~2~~usage: reformat rewrite | plan | scan FORMAT | translate strfmt|formatx | sample N^
scan {d} {d}~u64^~2~~usage: reformat rewrite | plan | scan FORMAT | translate strfmt|formatx | sample N^
sample 01~u64^~2~~usage: reformat rewrite | plan | scan FORMAT | translate strfmt|formatx | sample N^
sample +1~u64^~2~~usage: reformat rewrite | plan | scan FORMAT | translate strfmt|formatx | sample N^
sample 1000001~u64^~2~~usage: reformat rewrite | plan | scan FORMAT | translate strfmt|formatx | sample N^
sample~u64^~2~~usage: reformat rewrite | plan | scan FORMAT | translate strfmt|formatx | sample N^
sample x~u64^~2~~usage: reformat rewrite | plan | scan FORMAT | translate strfmt|formatx | sample N^
translate~u64^~2~~usage: reformat rewrite | plan | scan FORMAT | translate strfmt|formatx | sample N^
translate printf~u64^~2~~usage: reformat rewrite | plan | scan FORMAT | translate strfmt|formatx | sample N^
translate formatx x~u64^~2~~usage: reformat rewrite | plan | scan FORMAT | translate strfmt|formatx | sample N^";

#[test]
fn plans_formats(rt: HostRuntime) -> Result<(), Fail> {
    run_table(&rt, rt.alloc(), PLANS, 4096)?;
    run_table(&rt, rt.alloc(), PLANS, 1)
}

#[test]
fn scans_lines(rt: HostRuntime) -> Result<(), Fail> {
    run_table(&rt, rt.alloc(), SCANS, 4096)?;
    run_table(&rt, rt.alloc(), SCANS, 1)
}

#[test]
fn translates_formats(rt: HostRuntime) -> Result<(), Fail> {
    run_table(&rt, rt.alloc(), TRANSLATIONS, 4096)?;
    run_table(&rt, rt.alloc(), TRANSLATIONS, 1)
}

#[test]
fn rewrites_samples(rt: HostRuntime) -> Result<(), Fail> {
    run_table(&rt, rt.alloc(), SAMPLES, 4096)
}

#[test]
fn makes_a_sample(rt: HostRuntime) -> Result<(), Fail> {
    let sample = b"u32 i64 word\n%08x %+d %s\nformatx\n{2} {0} {1}\n00000000 +0 w0\n";
    let bytes = sample_input(rt.alloc(), 1).ok().ok_or("no memory")?;
    assert_eq!(rt; bytes.as_slice(), sample.as_slice());
    Ok(())
}

#[test]
fn knows_its_commands(rt: HostRuntime) -> Result<(), Fail> {
    run_table(&rt, rt.alloc(), NO_COMMANDS, 4096)
}

// The text that is planned for a format scans a row of it.
#[test]
fn scans_by_what_it_planned(rt: HostRuntime) -> Result<(), Fail> {
    let alloc = rt.alloc();
    let mut errors = sink(alloc, 1)?;
    let mut input = source(alloc, b"word u32 word u64\n%s [%08u] %s: %llu bytes\n", 7)?;
    let mut planned = sink(alloc, 7)?;
    let words = vec![in alloc; String::from_str(alloc, "plan")?]?;
    let got = run(alloc, &words, &mut input, &mut planned, &mut errors);
    assert_eq!(rt; got, 0);
    let format = planned.bytes().strip_suffix(b"\n").ok_or("no line feed")?;
    let format = String::from_utf8(format.to_vec(alloc)?)
        .ok()
        .ok_or("no text")?;
    let mut input = source(alloc, b"web01 [00000412] GET: 5120 bytes\n", 7)?;
    let mut output = sink(alloc, 7)?;
    let words = vec![in alloc; String::from_str(alloc, "scan")?, format]?;
    let got = run(alloc, &words, &mut input, &mut output, &mut errors);
    assert_eq!(rt; got, 0);
    assert_eq!(rt; output.bytes(), b"web01\t00000412\tGET\t5120\n".as_slice());
    assert_eq!(rt; errors.bytes(), b"".as_slice());
    Ok(())
}

// A line that isn't UTF-8 is refused where it is judged, and read where it isn't.
#[test]
fn judges_lines_as_text(rt: HostRuntime) -> Result<(), Fail> {
    let alloc = rt.alloc();
    for (word, bytes, want, told) in [
        ("plan", b"u8\n%d\n\xff\n".as_slice(), 0, b"".as_slice()),
        (
            "plan",
            b"u8\n\xff\n".as_slice(),
            1,
            b"line 2: not UTF-8\n".as_slice(),
        ),
    ] {
        let mut input = source(alloc, bytes, 2)?;
        let mut output = sink(alloc, 1)?;
        let mut errors = sink(alloc, 1)?;
        let words = vec![in alloc; String::from_str(alloc, word)?]?;
        let got = run(alloc, &words, &mut input, &mut output, &mut errors);
        assert_eq!(rt; got, want);
        assert_eq!(rt; errors.bytes(), told);
    }
    Ok(())
}
