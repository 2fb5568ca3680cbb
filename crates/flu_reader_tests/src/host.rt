//! Real files and writers.

use flu_adapt::{HostFiles, HostSink};
use flu_outside::{Failed, Files, PutFault, Sink, TakeFault};
use std::rt;
use std::test::Fail;

#[test]
fn takes_from_files(rt: HostRuntime) -> Result<(), Fail> {
    let mut files = HostFiles::new(&rt);
    // a name, and how many bytes come, none if it fails
    let cases = [
        ("there/is/no/such/file", None),
        ("/dev/null", Some(0)),
        ("/dev/zero", Some(4)),
        ("/dev/zero", Some(4)),
        ("there/is/no/such/file", None),
        ("/", None),
        ("/dev/null", Some(0)),
    ];
    for (name, wanted) in cases {
        let mut buffer = [1u8; 4];
        match files.take(name, &mut buffer) {
            Ok(n) => assert_eq!(rt; Some(n), wanted, "{name}"),
            Err(fault) => {
                assert_eq!(rt; fault, TakeFault::Failed);
                assert_eq!(rt; None, wanted, "{name}");
                assert!(rt; has_last(&files, name), "{name}");
            }
        }
    }
    Ok(())
}

#[test]
fn puts_files(rt: HostRuntime) -> Result<(), Fail> {
    let mut files = HostFiles::new(&rt);
    // what is put, and the bytes that the next take of four gives
    let cases: [(&[u8], &[u8]); 3] = [(b"abcdef", b"abcd"), (b"xy", b"xy"), (b"", b"")];
    for (bytes, wanted) in cases {
        assert_eq!(rt; files.put("save", bytes.to_vec(rt.alloc())?), Ok(()));
        let mut buffer = [1u8; 4];
        let n = files.take("save", &mut buffer).unwrap_or(9);
        assert_eq!(rt; buffer.get(..n), Some(wanted));
    }
    let put = files.put("no/such/directory/save", b"abc".to_vec(rt.alloc())?);
    assert_eq!(rt; put, Err(PutFault::Failed));
    assert!(rt; has_last(&files, "no/such/directory/save"));
    Ok(())
}

// Whether the failure that is kept is that of a name, with a reason of the system.
fn has_last<R: rt::Files + AllocGlobal>(files: &HostFiles<R>, name: &str) -> bool {
    match files.last_failure() {
        Some(failure) => failure.name.as_str() == name && failure.error.raw_os_error().is_some(),
        None => false,
    }
}

#[test]
fn writes_to_a_writer(rt: HostRuntime) -> Result<(), Fail> {
    let mut written = Vec::new(rt.alloc());
    let mut sink = HostSink::new(&mut written);
    assert_eq!(rt; sink.write(b"3,read,"), Ok(7));
    assert_eq!(rt; sink.write(b"count 0\n"), Ok(8));
    assert_eq!(rt; written.as_slice(), b"3,read,count 0\n".as_slice());

    // a writer that is full fails
    let mut room = [0u8; 4];
    let mut sink = HostSink::new(&mut room[..]);
    assert_eq!(rt; sink.write(b"3,read,"), Ok(4));
    assert_eq!(rt; sink.write(b"d,"), Err(Failed));
    assert_eq!(rt; sink.write(b"d,"), Err(Failed));

    // without an error
    assert!(rt; sink.last_failure().is_none());
    Ok(())
}
