//! Files and sinks in memory, and the taking and writing of many bytes.

use crate::files::files_of;
use flu_outside::{
    Failed, Files, HonestFiles, MemFiles, MemSink, PutFault, Sink, TakeFault, read_whole, write_all,
};
use std::alloc::Global;
use std::process::Abort;
use std::test::Fail;

/// Takes from names in turn, at most four bytes at once, and compares what comes: `None` if it fails.
fn take_each<F: Files>(rt: &impl Abort, files: &mut F, cases: &[(&str, Option<&[u8]>)]) {
    for (name, wanted) in cases {
        let mut buffer = [0u8; 4];
        let got = match files.take(name, &mut buffer) {
            Ok(n) => Some(&buffer[..n]),
            Err(fault) => {
                assert_eq!(rt; fault, TakeFault::Failed);
                None
            }
        };
        assert_eq!(rt; got, *wanted, "{name}");
    }
}

/// Puts bytes at names in turn, and takes from each after it: what is put, the answer, and what the take gives.
fn put_each<F: Files>(
    rt: &impl Abort,
    alloc: Global,
    files: &mut F,
    cases: &[(&str, &[u8], Result<(), PutFault>, &[u8])],
) -> Result<(), Fail> {
    for (name, bytes, answer, wanted) in cases {
        assert_eq!(rt; files.put(name, bytes.to_vec(alloc)?), *answer, "{name}");
        take_each(rt, files, &[(*name, Some(*wanted))]);
    }
    Ok(())
}

/// Writes texts in turn, and compares how many bytes are taken: `None` if it fails.
fn write_each<K: Sink>(rt: &impl Abort, sink: &mut K, cases: &[(&[u8], Option<usize>)]) {
    for (bytes, wanted) in cases {
        if !bytes.is_empty() {
            assert_eq!(rt; sink.write(bytes).ok(), *wanted, "{bytes:?}");
        }
    }
}

#[test]
fn takes_in_pieces(rt: HostRuntime) -> Result<(), Fail> {
    let mut files = files_of(rt.alloc(), &[("job", b"abcdefgh"), ("plan", b"xyz")], 3)?;
    files.fail_at(2)?;
    let cases: [(&str, Option<&[u8]>); 8] = [
        ("job", Some(b"abc")),
        ("job", None),
        ("job", Some(b"def")),
        ("none", None),
        ("plan", Some(b"xyz")),
        ("job", Some(b"gh")),
        ("job", Some(b"")),
        ("job", Some(b"")),
    ];
    take_each(&rt, &mut files, &cases);
    files.add("job", b"new".to_vec(rt.alloc())?)?;
    files.piece(9);
    files.add("none", b"12345".to_vec(rt.alloc())?)?;
    let cases: [(&str, Option<&[u8]>); 4] = [
        ("job", Some(b"new")),
        ("none", Some(b"1234")),
        ("none", Some(b"5")),
        ("none", Some(b"")),
    ];
    take_each(&rt, &mut files, &cases);
    Ok(())
}

#[test]
fn honest_names_are_empty(rt: HostRuntime) -> Result<(), Fail> {
    let mut files = HonestFiles::new(rt.alloc());
    files.add("job", b"abc".to_vec(rt.alloc())?)?;
    files.add("job", b"abcdef".to_vec(rt.alloc())?)?;
    let cases: [(&str, Option<&[u8]>); 5] = [
        ("none", Some(b"")),
        ("job", Some(b"abcd")),
        ("job", Some(b"ef")),
        ("job", Some(b"")),
        ("none", Some(b"")),
    ];
    take_each(&rt, &mut files, &cases);
    Ok(())
}

#[test]
fn puts_in_place(rt: HostRuntime) -> Result<(), Fail> {
    let mut files = MemFiles::new(rt.alloc());
    files.add("job", b"abcdefgh".to_vec(rt.alloc())?)?;
    let fails = Err(PutFault::Failed);
    files.fail_put(3)?;
    files.fail_put(5)?;
    take_each(&rt, &mut files, &[("job", Some(b"abcd"))]);
    let cases: [(&str, &[u8], Result<(), PutFault>, &[u8]); 6] = [
        ("job", b"xy", Ok(()), b"xy"),
        ("save", b"12345", Ok(()), b"1234"),
        ("save", b"9", fails, b"5"),
        ("save", b"9", Ok(()), b"9"),
        ("new", b"7", fails, b""),
        ("new", b"", Ok(()), b""),
    ];
    put_each(&rt, rt.alloc(), &mut files, &cases)?;
    let mut files = HonestFiles::new(rt.alloc());
    let cases: [(&str, &[u8], Result<(), PutFault>, &[u8]); 2] = [
        ("job", b"abcdef", Ok(()), b"abcd"),
        ("job", b"xy", Ok(()), b"xy"),
    ];
    put_each(&rt, rt.alloc(), &mut files, &cases)
}

#[test]
fn writes_in_pieces(rt: HostRuntime) -> Result<(), Fail> {
    let mut sink = MemSink::with_room(rt.alloc(), 8)?;
    sink.fail_at(3)?;
    sink.piece(3);
    let cases: [(&[u8], Option<usize>); 6] = [
        (b"abcd", Some(3)),
        (b"d", Some(1)),
        (b"ef", None),
        (b"ef", Some(2)),
        (b"ghi", None),
        (b"gh", Some(2)),
    ];
    write_each(&rt, &mut sink, &cases);
    assert_eq!(rt; sink.bytes(), b"abcdefgh".as_slice());
    Ok(())
}

#[test]
fn writes_all_until_a_failure(rt: HostRuntime) -> Result<(), Fail> {
    // the call that fails, or 0, and what is taken
    let cases: [(u64, &[u8]); 4] = [
        (0, b"3,read,count 0\n"),
        (1, b""),
        (2, b"3,re"),
        (4, b"3,read,count"),
    ];
    for (call, wanted) in cases {
        let mut out = MemSink::with_room(rt.alloc(), 64)?;
        out.piece(4);
        if call > 0 {
            out.fail_at(call)?;
        }
        let wrote = write_all(&mut out, b"3,read,count 0\n");
        assert_eq!(rt; wrote == Err(Failed), call > 0);
        assert_eq!(rt; out.bytes(), wanted);
    }
    Ok(())
}

#[test]
fn reads_whole_names(rt: HostRuntime) -> Result<(), Fail> {
    let mut files = files_of(
        rt.alloc(),
        &[("job", b"abcdefgh"), ("plan", b"abcdefgh")],
        3,
    )?;
    files.fail_at(7)?;
    // the name, the limit, and what is read, or none if a take fails
    let cases: [(&str, usize, Option<&[u8]>); 5] = [
        ("job", 8, Some(b"abcdefgh")),
        ("job", 8, Some(b"")),
        ("plan", 1, Some(b"abc")),
        ("plan", 8, None),
        ("none", 8, None),
    ];
    for (name, most, wanted) in cases {
        let got = read_whole(rt.alloc(), &mut files, name, most);
        match got {
            Ok(bytes) => assert_eq!(rt; Some(bytes.as_slice()), wanted, "{name}"),
            Err(fault) => {
                assert_eq!(rt; fault, TakeFault::Failed);
                assert!(rt; wanted.is_none(), "{name}");
            }
        }
    }
    Ok(())
}
