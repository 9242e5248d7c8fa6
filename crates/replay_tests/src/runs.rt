// A call `echo` answers its inputs, `values` the number of values that they are, `later` waits, `memory` has none.
use edge_io::{MemSink, MemSource};
use replay::{Calls, Case, Fault, read_values, undo_texts};
use replay_lines::replay;
use std::alloc::{AllocError, Global};
use std::test::Fail;

struct Echo;

impl Calls for Echo {
    fn answer(&self, alloc: Global, case: &Case<'_>) -> Result<Vec<String>, Fault> {
        match case.call.as_bytes() {
            b"echo" => undo_texts(alloc, case.inputs.as_slice()),
            b"values" => {
                let texts = undo_texts(alloc, case.inputs.as_slice())?;
                let count = read_values(alloc, texts.as_slice())?.len();
                Ok(vec![in alloc; count.to_string(alloc)?]?)
            }
            b"later" => Err(Fault::Waits),
            b"memory" => Err(Fault::NoMemory),
            _ => Err(Fault::NoSuchCall),
        }
    }
}

// Each escape, an empty field, `mended`, each kind of value, a call that waits, a last line that no line feed ends.
const GOOD: &[u8] = b"x\techo\ta\t\\\\\\t\\n\\r\\x1f\\x7f\t\t=>\ta\t\\\\\\t\\n\\r\\x1f\\x7f\t\n\
x\techo\ta\t=>\t\\x61\tmended\n\
x\techo\t\xc3\xa9\t=>\t\\xc3\\xa9\n\
x\tvalues\tu8:255\tu16:65535\tu32:7\tu64:7\tu128:7\tusize:7\ti8:-128\ti16:-7\ti32:-7\ti64:-7\ti128:-7\tisize:-7\t=>\t12\n\
x\tvalues\tbool:true\tchar:\xc3\xa9\tstr:a:b\tString:\t=>\t4\n\
x\tlater\t=>\tok\n\
x\techo\tb\t=>\tb";

// Answers that differ, and each way in which a line gives none.
const BAD: &[u8] = b"x\techo\ta\tb\t=>\ta\tb\n\
x\techo\t\\t\\xff\t=>\ta\n\
x\techo\t\\ta\\x01\t=>\ta\tb\n\
x\techo\ta\t=>\tA\n\
x\techo\ta\t=>\ta\t\n\
x\techo\ta\tb\t=>\ta\n\
x\techo\ta\n\
x\techo\n\
\n\
x\techo\ta\t=>\n\
x\techo\ta\t=>\tmended\n\
x\tunknown\ta\t=>\ta\n\
x\techo\t\\q\t=>\ta\n\
x\techo\ta\t=>\t\\x0g\n\
x\techo\t\xff\t=>\ta\n\
x\tvalues\tu8:256\t=>\t1\n\
x\tvalues\tf32:1\t=>\t1\n\
x\tvalues\t7\t=>\t1\n\
x\techo\ta\t=>\ta\n";

const BAD_OUTPUT: &[u8] = b"line 2: not UTF-8\n\
line 3: wanted\ta\tb\tcame\t\\ta\\x01\n\
line 4: wanted\tA\tcame\ta\n\
line 5: wanted\ta\t\tcame\ta\n\
line 6: wanted\ta\tcame\ta\tb\n\
line 7: no call or no answer in the line\n\
line 8: no call or no answer in the line\n\
line 9: no call or no answer in the line\n\
line 10: no call or no answer in the line\n\
line 11: no call or no answer in the line\n\
line 12: no such call\n\
line 13: a bad escape\n\
line 14: a bad escape\n\
line 15: not UTF-8\n\
line 16: an input that doesn't read\n\
line 17: an input that doesn't read\n\
line 18: an input that doesn't read\n\
2 passed, 17 failed\n";

fn source(alloc: Global, text: &[u8], failing: &[u64]) -> Result<MemSource, AllocError> {
    Ok(MemSource::new(text.to_vec(alloc)?, 100, failing.to_vec(alloc)?))
}

fn sink(alloc: Global, failing: &[u64]) -> Result<MemSink, AllocError> {
    Ok(MemSink::new(vec![in alloc; 0; 2000]?, 100, failing.to_vec(alloc)?))
}

#[test]
fn counts_lines_that_pass(rt: HostRuntime) -> Result<(), Fail> {
    let alloc = rt.alloc();
    let mut output = sink(alloc, &[])?;
    assert_eq!(rt;
        replay(alloc, &Echo, &mut source(alloc, GOOD, &[])?, &mut output),
        0
    );
    assert_eq!(rt;
        output.bytes(),
        b"6 passed, 0 failed, 1 skipped\n".as_slice()
    );
    Ok(())
}

#[test]
fn tells_lines_that_fail(rt: HostRuntime) -> Result<(), Fail> {
    let alloc = rt.alloc();
    let mut output = sink(alloc, &[])?;
    assert_eq!(rt;
        replay(alloc, &Echo, &mut source(alloc, BAD, &[])?, &mut output),
        1
    );
    assert_eq!(rt; output.bytes(), BAD_OUTPUT);
    Ok(())
}

// A read that fails, a write that fails, a call that has no memory.
#[test]
fn stops_at_faults(rt: HostRuntime) -> Result<(), Fail> {
    let alloc = rt.alloc();
    let mut output = sink(alloc, &[2])?;
    assert_eq!(rt;
        replay(alloc, &Echo, &mut source(alloc, GOOD, &[2])?, &mut output),
        4
    );
    assert_eq!(rt; output.bytes(), b"".as_slice());
    assert_eq!(rt;
        replay(alloc, &Echo, &mut source(alloc, BAD, &[])?, &mut output),
        5
    );
    let memory = b"x\techo\ta\t=>\ta\nx\tmemory\t=>\ta\n";
    assert_eq!(rt;
        replay(alloc, &Echo, &mut source(alloc, memory, &[])?, &mut output),
        6
    );
    Ok(())
}
