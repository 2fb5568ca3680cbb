//! Takes and puts of real files, in a folder of their own.

use flu_adapt::{HostFiles, ProgramCall};
use flu_outside::{Files, PutFault};
use std::alloc::{AllocError, Global};
use std::os::unix::fs::{MetadataExt, symlink};
use std::process::Abort;
use std::test::Fail;
use std::{env, fs, process, rt};

/// The call of a program with this process number, with which a file beside another one is named.
const CALL: ProgramCall = ProgramCall {
    process: 7,
    resumed: None,
    unflushed: false,
};

fn name_in(alloc: Global, folder: &str, name: &str) -> Result<String, AllocError> {
    format!(in alloc; "{folder}/{name}")
}

/// Takes at most four bytes each time, and compares what comes.
fn take_each<F: Files>(rt: &impl Abort, files: &mut F, name: &str, wanted: &[&str]) {
    for text in wanted {
        let mut buffer = [1u8; 4];
        let count = files.take(name, &mut buffer).unwrap_or(9);
        assert_eq!(rt; buffer.get(..count), Some(text.as_bytes()));
    }
}

/// Puts a text at a name, compares the answer, and then the text of a file.
fn put<R: rt::Files + AllocGlobal + Abort, F: Files>(
    rt: &R,
    files: &mut F,
    name: &str,
    text: &str,
    answer: Result<(), PutFault>,
    file: &str,
    wanted: &str,
) -> Result<(), Fail> {
    let bytes = text.as_bytes().to_vec(rt.alloc())?;
    assert_eq!(rt; files.put(name, bytes), answer);
    assert_eq!(rt; fs::read_to_string(rt, file)?.as_str(), wanted);
    Ok(())
}

/// Each take begins where the one before ended, and a name that ended stays at its end. What was taken from is not replaced by another name.
fn check_takes<R: rt::Files + AllocGlobal + Abort>(rt: &R, folder: &str) -> Result<(), Fail> {
    let source = name_in(rt.alloc(), folder, "a.csv")?;
    let other = name_in(rt.alloc(), folder, "./a.csv")?;
    let name = source.as_str();
    fs::write(rt, name, "abcdefghij")?;
    let mut files = HostFiles::of_program(rt, CALL);
    take_each(rt, &mut files, name, &["abcd", "efgh", "ij", "", ""]);
    let failed = Err(PutFault::Failed);
    put(rt, &mut files, &other, "new", failed, name, "abcdefghij")?;
    assert_eq!(rt; fs::metadata(rt, name)?.nlink(), 1);
    Ok(())
}

/// A put leaves none of the old bytes, and no file beside; what an earlier process left there is removed.
fn check_puts<R: rt::Files + AllocGlobal + Abort>(
    rt: &R,
    save: &str,
    beside: &str,
) -> Result<(), Fail> {
    fs::write(rt, beside, "left")?;
    let mut files = HostFiles::of_program(rt, CALL);
    for text in ["a longer checkpoint", "short", ""] {
        put(rt, &mut files, save, text, Ok(()), save, text)?;
        assert!(rt; fs::metadata(rt, beside).is_err());
    }
    Ok(())
}

/// A put goes through a link, which stays one. If the file beside can't be made, the old bytes stay.
fn check_links<R: rt::Files + AllocGlobal + Abort>(
    rt: &R,
    folder: &str,
    save: &str,
    beside: &str,
) -> Result<(), Fail> {
    let link = name_in(rt.alloc(), folder, "link")?;
    symlink(rt, save, link.as_str())?;
    let mut files = HostFiles::of_program(rt, CALL);
    put(rt, &mut files, &link, "linked", Ok(()), save, "linked")?;
    assert!(rt; fs::symlink_metadata(rt, link.as_str())?.is_symlink());
    fs::create_dir(rt, beside)?;
    let failed = Err(PutFault::Failed);
    put(rt, &mut files, save, "new", failed, save, "linked")
}

#[test]
fn files_are_taken_on_and_put_whole(rt: HostRuntime) -> Result<(), Fail> {
    let alloc = rt.alloc();
    let number = process::id(rt.process());
    let above = env::temp_dir(&rt)?;
    let folder = format!(in alloc; "{}/flumina-files-{number}", above.as_str())?;
    fs::create_dir(&rt, folder.as_str())?;
    let save = name_in(alloc, &folder, "save")?;
    let beside = name_in(alloc, &folder, "save.flumina-new-7")?;
    check_takes(&rt, &folder)?;
    check_puts(&rt, &save, &beside)?;
    check_links(&rt, &folder, &save, &beside)?;
    fs::remove_dir_all(&rt, folder.as_str())?;
    Ok(())
}
