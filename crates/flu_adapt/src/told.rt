//! What the system says about the process, in files under `/proc/self`.

use crate::host_files::read_once;
use std::{fs, io, rt, str};

/// How many bytes of such a file are read. What is looked for is in its first lines.
const TOLD_ROOM: usize = 4_096;

/// The greatest length that the process may give a file, in bytes. None if there is no limit, or if none is stated.
pub(crate) fn length_limit<R: rt::Files>(rt: &R) -> Option<u64> {
    match told_number(rt, "/proc/self/limits", "Max file size") {
        Ok(limit) => limit,
        Err(_) => None,
    }
}

/// Where the next write of an open file begins, in bytes, unless it is appended to; `name` is the name of the file that says so, such as
/// `/proc/self/fdinfo/1`.
pub(crate) fn position<R: rt::Files>(rt: &R, name: &str) -> io::Result<u64> {
    match told_number(rt, name, "pos:")? {
        Some(position) => Ok(position),
        None => Err(io::Error::other("where the next write begins is not told")),
    }
}

// The number after a label. None if the label is not there, or no number comes after it.
fn told_number<R: rt::Files>(rt: &R, name: &str, label: &str) -> io::Result<Option<u64>> {
    let mut file = fs::open(rt, name)?;
    let mut bytes = [0u8; TOLD_ROOM];
    let mut count = 0;
    for _ in 0..TOLD_ROOM {
        let Some(room) = bytes.get_mut(count..) else {
            break;
        };
        let more = read_once(&mut file, room)?;
        if more == 0 {
            break;
        }
        count = count.saturating_add(more);
    }
    Ok(number_in(bytes.get(..count).unwrap_or(&[]), label))
}

fn number_in(bytes: &[u8], label: &str) -> Option<u64> {
    let text = str::from_utf8(bytes).ok()?;
    let (_, behind) = text.split_once(label)?;
    behind.split_whitespace().next()?.parse().ok()
}
