ghost use Rattle.std.specs.Prelude.{◌≡◌, ◌≤◌, length, IfOk};
ghost use Rattle.ksql_types.specs.Text.{longest_text};

use ksql_outside::{
    DirFolder, Failed, Folder, Gate, MemFolder, MemSink, NoGate, ReadFail, Sink, StdSink,
    write_whole,
};
use ksql_types::{Bytes, Chars};
use std::alloc::{AllocError, Global};
use std::test::Fail;

fn file(alloc: Global, name: &str, bytes: &[u8]) -> Result<(Chars, Bytes), AllocError>
    requires { length name.now ≤ longest_text }
    ensures { IfOk result (λ pair. pair.0 ≡ name.now) }
{
    let name = Chars::of(String::from_str(alloc, name)?)?;
    Ok((name, Bytes::of(Vec::from_slice(alloc, bytes)?)))
}

fn read_length<F: Folder>(folder: &mut F, alloc: Global, name: &str) -> Result<usize, ReadFail> {
    let bytes = folder.read(alloc, name)?;
    Ok(bytes.len())
}

fn arrive_at<G: Gate + Sync>(gate: &G) {
    gate.arrive(0, 0);
}

#[test]
#[tactic(auto, unfolding(ksql_types::specs::Text::longest_text))]
fn a_folder_in_memory_reads_its_files_and_fails_where_it_is_told(
    rt: HostRuntime,
) -> Result<(), Fail> {
    let alloc = rt.alloc();
    let mut files = Vec::new(alloc);
    files.push(file(alloc, "orders", &[1, 2, 3])?)?;
    let failing = Vec::from_slice(alloc, &[2])?;
    let mut folder = MemFolder::new(alloc, files, failing);
    let bytes = folder.read(alloc, "orders")?;
    assert_eq!(rt; bytes.as_slice(), [1, 2, 3].as_slice());
    assert_eq!(rt; folder.read(alloc, "orders").err(), Some(ReadFail::Failed));
    assert_eq!(rt; folder.read(alloc, "order").err(), Some(ReadFail::Failed));
    assert_eq!(rt; read_length(&mut folder, alloc, "orders"), Ok(3));
    Ok(())
}

#[test]
fn a_sink_in_memory_takes_a_byte_at_a_time_until_it_is_full(rt: HostRuntime) -> Result<(), Fail> {
    let mut sink = MemSink::new(rt.alloc(), 10, 1)?;
    for _ in 0..10 {
        assert_eq!(rt; sink.write(b"ab"), Ok(1));
    }
    assert_eq!(rt; sink.write(b"ab"), Err(Failed));
    assert_eq!(rt; sink.write(b""), Ok(0));
    assert_eq!(rt; sink.written(), b"aaaaaaaaaa".as_slice());
    Ok(())
}

#[test]
fn a_piece_is_written_whole_or_as_far_as_there_is_room(rt: HostRuntime) -> Result<(), Fail> {
    let mut sink = MemSink::new(rt.alloc(), 10, 1)?;
    assert_eq!(rt; write_whole(&mut sink, b"hello "), Ok(()));
    assert_eq!(rt; write_whole(&mut sink, b"world"), Err(Failed));
    assert_eq!(rt; sink.written(), b"hello worl".as_slice());
    Ok(())
}

#[test]
fn the_real_folder_cuts_a_long_file_and_fails_at_a_missing_one(
    rt: HostRuntime,
) -> Result<(), Fail> {
    let alloc = rt.alloc();
    let mut folder = DirFolder::new(rt, alloc);
    assert_eq!(rt;
        read_length(&mut folder, alloc, "/dev/zero"),
        Ok(67_108_865)
    );
    assert_eq!(rt;
        folder.read(alloc, "no such file").err(),
        Some(ReadFail::Failed)
    );
    assert_eq!(rt; folder.read(alloc, ".").err(), Some(ReadFail::Failed));
    Ok(())
}

#[test]
fn standard_output_takes_a_piece(rt: HostRuntime) {
    let mut sink = StdSink::new(rt);
    assert_eq!(rt; write_whole(&mut sink, b"written\n"), Ok(()));
    arrive_at(&NoGate);
}
