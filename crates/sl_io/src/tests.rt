//! Each call is made by a helper with no clauses, so that a test is proved without the facts of the calls before.
use crate::{
    FailShelf, FailSink, FailedWrite, GetFault, MemShelf, MemSink, PutFault, Shelf, ShelfCounts,
    Sink, SinkFault, tell, write_pieces,
};
use plain_data::{Bytes, Items};
use std::alloc::Global;
use std::test::Fail;

/// Puts what one name holds under another, as any caller of a shelf would.
fn copy_file<H: Shelf>(alloc: Global, shelf: &mut H, from: &str, to: &str) -> Result<(), Fail> {
    let bytes = shelf.get(alloc, from, 100)?;
    shelf.put(alloc, to, bytes.as_slice())?;
    Ok(())
}

fn got<H: Shelf>(
    alloc: Global,
    shelf: &mut H,
    name: &str,
    limit: usize,
) -> Result<Bytes, GetFault> {
    shelf.get(alloc, name, limit)
}

fn put<H: Shelf>(alloc: Global, shelf: &mut H, name: &str, bytes: &[u8]) -> Result<(), PutFault> {
    shelf.put(alloc, name, bytes)
}

fn written<S: Sink>(sink: &mut S, piece: &[u8]) -> Result<(), SinkFault> {
    sink.write(piece)
}

fn two_files(alloc: Global) -> Result<MemShelf, Fail> {
    let mut shelf = MemShelf::new(alloc);
    shelf.add_file(alloc, "a.c", b"int")?;
    shelf.add_file(alloc, "empty", b"")?;
    Ok(shelf)
}

fn holds(shelf: &MemShelf, name: &str, bytes: &[u8]) -> bool {
    match shelf.file(name) {
        Some(held) => held == bytes,
        None => false,
    }
}

#[test]
fn a_shelf_gives_what_it_holds(rt: HostRuntime) -> Result<(), Fail> {
    let alloc = rt.alloc();
    let mut shelf = two_files(alloc)?;
    assert_eq!(rt;
        got(alloc, &mut shelf, "a.c", 3)?.as_slice(),
        b"int".as_slice()
    );
    assert_eq!(rt; got(alloc, &mut shelf, "empty", 0)?.len(), 0);
    assert!(rt; got(alloc, &mut shelf, "a.c", 2) == Err(GetFault::TooLong));
    assert!(rt; got(alloc, &mut shelf, "b.c", 9) == Err(GetFault::Failed));
    let counts = ShelfCounts {
        taken: 6,
        get_faults: 1,
        put_faults: 0,
        long_reads: 1,
    };
    assert_eq!(rt; shelf.counts(), counts);
    Ok(())
}

#[test]
fn a_put_changes_one_file(rt: HostRuntime) -> Result<(), Fail> {
    let alloc = rt.alloc();
    let mut shelf = two_files(alloc)?;
    copy_file(alloc, &mut shelf, "a.c", "b.c")?;
    put(alloc, &mut shelf, "a.c", b"x")?;
    assert!(rt; holds(&shelf, "a.c", b"x"));
    assert!(rt; holds(&shelf, "b.c", b"int"));
    assert!(rt; holds(&shelf, "empty", b""));
    assert!(rt; shelf.file("c.c").is_none());
    Ok(())
}

#[test]
fn listed_calls_of_a_shelf_fail(rt: HostRuntime) -> Result<(), Fail> {
    let alloc = rt.alloc();
    let failing = Items::from_slice(alloc, &[1u64, 4])?;
    let mut shelf = FailShelf::new(two_files(alloc)?, failing);
    assert!(rt; got(alloc, &mut shelf, "a.c", 3) == Err(GetFault::Failed));
    copy_file(alloc, &mut shelf, "a.c", "b.c")?;
    assert!(rt; put(alloc, &mut shelf, "a.c", b"x") == Err(PutFault::Failed));
    assert_eq!(rt;
        got(alloc, &mut shelf, "b.c", 3)?.as_slice(),
        b"int".as_slice()
    );
    assert_eq!(rt; shelf.calls(), 5);
    assert!(rt; holds(shelf.shelf(), "a.c", b"int"));
    assert_eq!(rt; shelf.shelf().counts().get_faults, 1);
    assert_eq!(rt; shelf.shelf().counts().put_faults, 1);
    Ok(())
}

#[test]
fn a_sink_takes_what_fits(rt: HostRuntime) -> Result<(), Fail> {
    let mut sink = MemSink::with_room(rt.alloc(), 6)?;
    written(&mut sink, b"hi\n")?;
    assert!(rt; written(&mut sink, b"hello") == Err(SinkFault::Failed));
    write_pieces(
        &mut sink,
        &[b"".as_slice(), b"yo".as_slice(), b"\n".as_slice()],
    )?;
    tell(&mut sink, b"x");
    assert_eq!(rt; sink.bytes(), b"hi\nyo\n".as_slice());
    assert_eq!(rt; sink.faults(), 2);
    assert_eq!(rt; sink.room(), 6);
    Ok(())
}

#[test]
fn listed_writes_of_a_sink_fail_after_a_prefix(rt: HostRuntime) -> Result<(), Fail> {
    let alloc = rt.alloc();
    let failing = [
        FailedWrite {
            call: 2,
            written: 1,
        },
        FailedWrite {
            call: 3,
            written: 100,
        },
        FailedWrite {
            call: 4,
            written: 0,
        },
    ];
    let room = MemSink::with_room(alloc, 100)?;
    let mut sink = FailSink::new(room, Items::from_slice(alloc, &failing)?);
    written(&mut sink, b"one,")?;
    assert!(rt; written(&mut sink, b"two,") == Err(SinkFault::Failed));
    assert!(rt; written(&mut sink, b"three,") == Err(SinkFault::Failed));
    assert!(rt; written(&mut sink, b"four,") == Err(SinkFault::Failed));
    written(&mut sink, b"five")?;
    assert_eq!(rt; sink.sink().bytes(), b"one,tthree,five".as_slice());
    assert_eq!(rt; sink.sink().faults(), 3);
    assert_eq!(rt; sink.calls(), 5);
    Ok(())
}
