// Worked scans: what formats take from inputs.
use numerals::NoMemory;
use scan_fmt::parse::{Format, ScanError, Tokens, one_answer, scan, some_answer};
use std::alloc::Global;
use std::process::Abort;
use std::test::Fail;

// Each line is a format, an input, and the tokens with a semicolon after each: literals, runs and the ends of both texts; then
// numbers and their limits; then sets, also past ASCII, and malformed fields.
const SCANS: &str = "\
    data {d}-{d}={d}\t data 42-12=30\t42;12;30;\n\
    {d} hi{e}\t12 hi2\t;\n\
    {d} hi{e}\t12 hi\t12;\n\
    {d}in\t17\t17;\n\
    {d}cm\t17in\t;\n\
    {2d}{3d}{4x}{2d} {3d}\t01123fe071 432\t01;123;fe07;1;432;\n\
    xyz {[40-3]}{*[65]}{[7-78-9λ]}\txyz  01234567λ89\t01234;7λ89;\n\
    {f}\t42\t42;\n\
    {5}\t42\t\n\
    {//}\t42\t\n\
    {/a\t42\t\n\
    {s}{s} {}n {s}x\tThe quick brown fox\tThe;quick;brow;fox;\n\
    λ{d}\tλ1\t1;\n\
    {\tx\t\n\
    {[\tx\t\n\
    {{}x}}{d}\t{x}7\t7;\n\
    } a\t a\t;\n\
    }\t}\t\n\
    a b\tab\t\n\
    {}é{}\t1é2\t1;2;\n\
    {}{d}\ta{b}c 2\ta;;\n\
    {} x\ta{b}c x\ta{b}c;\n\
    {*}{s}\ta{b}c x\t{b}c;\n\
    {e}\t \t\n\
    {3e}\ta\t;\n\
    \tab123c d\t\n\
    ab{*2d}c{s}\t\t\n\
    ab{*2d}c{s}\tab12\t\n\
    {}{s}\t  1 2\t1;2;\n\
    {}}{s}\t  1 2\t;\n\
    ab\tAb\t;\n\
    中 {s}\t中 é\té;\n\
    {0d}\t007\t007;\n\
    {1d}{s}\t 42 end\t4;2;\n\
    {2d}{*d}{s}\t-7 end\t-7;end;\n\
    {3d}{s}\t +9 end\t9;end;\n\
    {d}{s}\t+-1 end\t;-1;\n\
    {d}{s}\t- end\t-;end;\n\
    {18446744073709551615d}{s}\t12345 z\t12345;z;\n\
    {18446744073709551616d}{s}\t-12345 z\t-12345;z;\n\
    {0d}{s}\t ٣ end\t;٣;\n\
    {x}\t0x1F\t1F;\n\
    {1x}{s}\t1f end\t1;f;\n\
    {*2x}{s}\t0x end\tend;\n\
    {x}{s}\t00x1 end\t00;x1;\n\
    {3x}{s}\tx1f end\tx1f;end;\n\
    {x}\t0x0x1\t0;\n\
    {x}{s}\t0xé end\t;é;\n\
    {f}{s}\t+3.25e10 end\t3.25e10;end;\n\
    {1f}{s}\t1.5 end\t1;.5;\n\
    {2f}{s}\t1.5é end\t1.;5é;\n\
    {f}{s}\t1e-3 end\t1e-3;end;\n\
    {4f}{s}\t1+2 end\t1;+2;\n\
    {f}{s}\te5 end\te5;end;\n\
    {f}{s}\tnan end\t;nan;\n\
    {[abc]}{s}\tabc-]^\tabc;-]^;\n\
    {[^a]}{s}\tabc-]^\t;abc-]^;\n\
    {[^]]}{s}\tabc-]^\tabc-;]^;\n\
    {[a-]}{s}\tabc-]^\ta;bc-]^;\n\
    {[^-a]}{s}\tabc-]^\t;abc-]^;\n\
    {[]-a]}{s}\tabc-]^\ta;bc-]^;\n\
    {[^é]}{s}\tabc-]^\tabc-]^;\n\
    {0[0-9]}{s}\t1234 56\t1234;56;\n\
    {[y-ä]}{s}\tz~äåx\tz~ä;åx;\n\
    {[^y-ä]}{s}\tåxz\tåx;z;\n\
    {[é-éa]}{s}\taéb\taé;b;\n\
    {[ф-яα-ωкβ-γδ-εя-а中а-уё]}{s}\tαωаухфяё中 ѐ\tαωаухфяё中;ѐ;\n\
    {[λ-λя-αк-м]}{s}\tλкмн\tλкм;н;\n\
    {[^ф-яα-ωβ-γя-аδ中-中]}{s}\tѐ abᾰuγ\tѐ abᾰu;γ;\n\
    {[^a-c]}a\txyza5 \txyz;\n\
    {[a-]]}{s}\tabc-]^\t\n\
    {d}{[^\t7abab\t7;\n\
    {d}{[]\t7abab\t7;\n\
    {d}{[a]x}\t7abab\t7;\n\
    {s}{**d}{s}\tone 22 three\tone;\n\
    {s}{5 d}{s}\tone 22 three\tone;\n\
    {s}{D}{s}\tone 22 three\tone;\n\
    {4x}-{\tff-b\tff;\n\
    {d}{3/a/}{s}\t7abc\t7;a;bc;\n\
";

// The same of expressions: tokens, groups and stars; how a pattern ends; what isn't read; and patterns on which others blow up.
const EXPRESSIONS: &str = "\
    one ({/[^)]+\\)?/}) two\tone ((hello)) two\t(hello);\n\
    {/jj(a*)jj/}\tjjaaajj\taaa;\n\
    {/[a-c]+/}{d}\tabc12\tabc;12;\n\
    {/a(b)?c/}{s}\tac d\tac;d;\n\
    {/a(b)?c/}{s}\tabc d\tb;d;\n\
    {/(a)|(b)/}{s}\tbc\tb;c;\n\
    {/(?:ab)+/}{s}\tababc\tabab;c;\n\
    {/a(b)*/}{s}\tabbc\tb;c;\n\
    {/a(?<last>b)/}{s}\tabc\tb;c;\n\
    {/()a/}{s}\tab\t;b;\n\
    {*/a+/}{s}\taab\tb;\n\
    {*2/a+/}{s}\taab\tb;\n\
    {2/a+/}{s}\taaab\taaa;b;\n\
    {99999999999999999999/a/}{s}\tab\ta;b;\n\
    {/z/}{s}\tabc\t;abc;\n\
    {*/z/}{s}\tabc\tabc;\n\
    {d}{/z*/}{s}\t7 abc\t7;;abc;\n\
    {/b/}{s}\tabc\t;abc;\n\
    {/a|b/}{s}\tba\tb;a;\n\
    {/b|ab/}{s}\tabc\tab;c;\n\
    {/^a/}{s}\tab\ta;b;\n\
    {d}{/^a/}{s}\t7ab\t7;a;b;\n\
    {/a$/}{s}\tab\t;ab;\n\
    {/a$/}{s}\ta\ta;\n\
    {d}{/\\ba/}{s}\t7ab\t7;a;b;\n\
    {/a)|(?:b/}{s}\txxbc\tb;c;\n\
    {/é(.)/}{s}\téλb\tλ;b;\n\
    é{/\\w+/}|{d}\té中é|7\t中é;7;\n\
    {/a b/}{s}\ta b c\ta b;c;\n\
    {/ a/}{s}\t a\t;a;\n\
    {/a}b/}{s}\ta}bc\ta}b;c;\n\
    {/a\\/b/}{s}\ta/bc\ta/b;c;\n\
    {/[\\/]/}{s}\t/a\t/;a;\n\
    {//a/}{s}\t/ab\t/a;b;\n\
    {///}{s}\t/ab\t/;ab;\n\
    {/\\/}{s}\tab\t\n\
    {/\\//}{s}\t/ab\t\n\
    {/\\d/}{s}\t1ab\t1;ab;\n\
    {//}\tab\t\n\
    {//}}/}{s}\t/}}a\t/}};a;\n\
    {/a\ta\t\n\
    {/a/\ta\t\n\
    {/a/x}\ta\t\n\
    {/a/ }\ta\t\n\
    {/a\\/}\ta\t\n\
    {d}{/\t7a\t7;\n\
    {d}{/(/}{s}\t7ab c\t7;\n\
    {d}{/[/}{s}\t7ab c\t7;\n\
    {d}{/*/}{s}\t7ab c\t7;\n\
    {d}{/a)/}{s}\t7ab c\t7;\n\
    {d}{/\\1/}{s}\t7ab c\t7;\n\
    {d}{/(?=a)/}{s}\t7ab c\t7;\n\
    {d}{/a{2,1}/}{s}\t7ab c\t7;\n\
    x{d}{/(/}{s}\ty7ab\t;\n\
    {d}{/(/}{e}\t7\t7;\n\
    {/(a+)+$/}{s}\taaaaaaaaaaaaaaaaaaaaaaaaaaaaaaaaaaaaaaaaaaaaaaab\t;aaaaaaaaaaaaaaaaaaaaaaaaaaaaaaaaaaaaaaaaaaaaaaab;\n\
    {/(a|aa)+$/}{s}\taaaaaaaaaaaaaaaaaaaaaaaaaaaaaaaaaaaaaaaaaaaaaaab\t;aaaaaaaaaaaaaaaaaaaaaaaaaaaaaaaaaaaaaaaaaaaaaaab;\n\
    {/(a*)*b/}{s}\taaaaaaaaaaaaaaaaaaaaaaaaaaaaaaaaaaaaaaaaaaaaaaac\t;aaaaaaaaaaaaaaaaaaaaaaaaaaaaaaaaaaaaaaaaaaaaaaac;\n\
    {/a?a?a?a?a?a?a?a?a?a?a?a?a?a?a?a?aaaaaaaaaaaaaaaa/}{s}\taaaaaaaaaaaaaaaab\taaaaaaaaaaaaaaaa;b;\n\
";

/// The tokens, each with a semicolon after it.
fn joined(alloc: Global, tokens: Tokens) -> Result<String, NoMemory> {
    let mut text = String::new(alloc);
    for token in tokens {
        if text.push_str(&token).is_err() || text.push(';').is_err() {
            return Err(NoMemory);
        }
    }
    Ok(text)
}

fn follow(rt: &impl Abort, alloc: Global, rows: &str) -> Result<(), Fail> {
    for row in rows.lines() {
        let (format, rest) = row.split_once('\t').ok_or("no format")?;
        let (input, tokens) = rest.split_once('\t').ok_or("no input")?;
        let found = scan(alloc, input, format).ok().ok_or("no memory")?;
        let found = joined(alloc, found).ok().ok_or("no memory")?;
        assert_eq!(rt; found.as_str(), tokens, "{format} of {input}");
    }
    Ok(())
}

#[test]
fn formats_take_tokens(rt: HostRuntime) -> Result<(), Fail> {
    one_answer();
    some_answer();
    follow(&rt, rt.alloc(), SCANS)
}

#[test]
fn expressions_take_tokens(rt: HostRuntime) -> Result<(), Fail> {
    follow(&rt, rt.alloc(), EXPRESSIONS)
}

/// A format of one expression in so many groups, and then a run.
fn nested(alloc: Global, groups: usize) -> Result<String, Fail> {
    let mut format = String::from_str(alloc, "{d}{/")?;
    for i in 0..groups {
        let _ = i;
        format.push('(')?;
    }
    format.push('a')?;
    for i in 0..groups {
        let _ = i;
        format.push(')')?;
    }
    format.push_str("/}{s}")?;
    Ok(format)
}

#[test]
fn an_expression_that_nests_too_deep_ends_the_scan(rt: HostRuntime) -> Result<(), Fail> {
    let alloc = rt.alloc();
    for (groups, tokens) in [(200, "7;a;b;"), (300, "7;")] {
        let format = nested(alloc, groups)?;
        let found = scan(alloc, "7ab", format.as_str()).ok().ok_or("no memory")?;
        let found = joined(alloc, found).ok().ok_or("no memory")?;
        assert_eq!(rt; found.as_str(), tokens, "{groups} groups");
    }
    Ok(())
}

#[test]
fn an_expression_past_the_limit_wants_memory(rt: HostRuntime) -> Result<(), Fail> {
    let alloc = rt.alloc();
    for format in ["{/((a{1000}){1000}){1000}/}", "{/(?:\\w{1000}){1000}/}"] {
        let refused = scan(alloc, "a", format).is_err();
        assert_eq!(rt; refused, true, "{format}");
    }
    Ok(())
}

#[test]
fn a_format_scans_many_inputs(rt: HostRuntime) -> Result<(), Fail> {
    let alloc = rt.alloc();
    let format = Format::new(alloc, "{d}-{s}").ok().ok_or("no memory")?;
    for (input, tokens) in [("1-a", "1;a;"), ("2 -b c", "2;b;"), ("3", "3;")] {
        let found = format.scan(alloc, input).ok().ok_or("no memory")?;
        let found = joined(alloc, found).ok().ok_or("no memory")?;
        assert_eq!(rt; found.as_str(), tokens, "{input}");
    }
    Ok(())
}

#[test]
fn a_fault_shows_its_text(rt: HostRuntime) -> Result<(), Fail> {
    let error = ScanError(String::from_str(rt.alloc(), "no number")?);
    let shown = format!(in rt.alloc(); "{error}")?;
    assert_eq!(rt; shown.as_str(), "Scan error: no number");
    Ok(())
}
