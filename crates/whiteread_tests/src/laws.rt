// The laws of readers at types that are carried: the check refuses a type that lacks what a law asks for.
use edge_io::{MemSource, StdinSource};
use reader_laws::laws::{continue_decided_by_words, no_fault_over_good_input};
use whiteread::adapters::{Lengthed, WithCheapError, Zeroed};

#[test]
fn laws_hold_of_carried_types(rt: HostRuntime) {
    let _ = rt;
    no_fault_over_good_input::<(u8, Option<String>), MemSource>();
    continue_decided_by_words::<(i64, bool), MemSource, StdinSource>();
    continue_decided_by_words::<Vec<(u8, String)>, MemSource, MemSource>();
    continue_decided_by_words::<(Lengthed<char>, Zeroed<u16>), MemSource, StdinSource>();
    continue_decided_by_words::<WithCheapError<Option<i32>>, &mut MemSource, MemSource>();
}
