// Files and the process's standard streams.
use edge_io::{
    Failed, FileSource, OpenFault, Sink, Source, StderrSink, StdinSource, StdoutSink, write_all,
};
use std::fs;
use std::test::Fail;

// A file gives what was written to it, in pieces, and then its end.
#[test]
fn reads_a_file(rt: HostRuntime) -> Result<(), Fail> {
    fs::write(&rt, "edge_io_test.txt", "abcde")?;
    let mut source = FileSource::open(&rt, rt.alloc(), "edge_io_test.txt")?;
    fs::remove_file(&rt, "edge_io_test.txt")?;
    let mut buf = [0; 3];
    assert_eq!(rt; source.read(&mut buf), Ok(3));
    assert_eq!(rt; buf, *b"abc");
    assert_eq!(rt; source.read(&mut buf), Ok(2));
    assert_eq!(rt; buf, *b"dec");
    assert_eq!(rt; source.read(&mut buf), Ok(0));
    Ok(())
}

// A file that is missing can't be opened, and a folder opens and can't be read.
#[test]
fn refuses_a_file(rt: HostRuntime) -> Result<(), Fail> {
    let missing = FileSource::open(&rt, rt.alloc(), "edge_io_missing.txt");
    assert_eq!(rt; missing.err(), Some(OpenFault::CannotOpen));
    if let Ok(mut folder) = FileSource::open(&rt, rt.alloc(), ".") {
        assert_eq!(rt; folder.read(&mut [0; 3]), Err(Failed));
    }
    Ok(())
}

// Standard input is empty in a test, and the two outputs take what is written.
#[test]
fn reaches_the_real_ends(rt: HostRuntime) -> Result<(), Fail> {
    assert_eq!(rt; StdinSource::new(&rt).read(&mut [0; 3]), Ok(0));
    let mut stdout = StdoutSink::new(&rt);
    assert_eq!(rt; write_all(&mut stdout, b"out\n"), Ok(()));
    assert_eq!(rt; stdout.write(b""), Ok(0));
    assert_eq!(rt; write_all(&mut StderrSink::new(&rt), b"err\n"), Ok(()));
    Ok(())
}
