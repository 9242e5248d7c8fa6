ghost use Rattle.std.specs.Prelude.{None};

use edge_io::{Failed, Sink, write_all};
use std::test::Fail;

/// A sink that counts bytes and keeps none.
#[derive(Drop)]
struct Counter {
    bytes: u64,
}

impl Sink for Counter {
    // The bytes that it holds aren't told.
    ghost held = { λ _. None };

    // It never fails.
    ghost faults = { λ _. 0 };

    fn write(&mut self, piece: &[u8]) -> Result<usize, Failed> {
        self.bytes = self.bytes.saturating_add(piece.len() as u64);
        Ok(piece.len())
    }
}

pub fn show(rt: &HostRuntime) -> Result<(), Fail> {
    let mut counter = Counter { bytes: 0 };
    write_all(&mut counter, b"a line\n")?;
    write_all(&mut counter, b"and another\n")?;
    println!(rt; "{} bytes", counter.bytes)?;
    Ok(())
}
