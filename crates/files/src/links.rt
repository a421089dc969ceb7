// Where a path leads through symbolic links, and names in a path's folder.
use super::system::text;
use arrayvec::ArrayVec;
use front::rooms::WORD_ROOM;
use std::fs::{read_link, symlink_metadata};
use std::path::PathBuf;

// A path that is made here.
pub(crate) type Made = ArrayVec<u8, WORD_ROOM>;

// As many links as the system itself follows.
const MOST_LINKS: usize = 40;

// The folder that a path names, the slash included.
fn folder_of(path: &[u8]) -> &[u8] {
    match path.iter().rposition(|b| *b == b'/') {
        Some(slash) => &path[..=slash],
        None => b"",
    }
}

// Lays a name in the folder of a path, where there is room; whether there was.
pub(crate) fn lay_beside(path: &[u8], name: &[u8], into: &mut Made) -> bool {
    into.try_extend_from_slice(folder_of(path)).is_ok() && into.try_extend_from_slice(name).is_ok()
}

// Where the link at a path leads; nowhere where the path is no link, or what the link says is no UTF-8.
fn link_text(rt: &HostRuntime, path: &[u8]) -> Option<PathBuf> {
    read_link(rt, text(path).ok()?).ok()
}

pub(crate) fn is_link(rt: &HostRuntime, path: &[u8]) -> bool {
    match text(path) {
        Ok(path) => symlink_metadata(rt, path).is_ok_and(|told| told.is_symlink()),
        Err(_) => false,
    }
}

// Follows the link at a path, if it is one and the new path is not too long; whether it did.
fn follow(rt: &HostRuntime, path: &mut Made) -> bool {
    let Some(to) = link_text(rt, path.as_slice()) else {
        return false;
    };
    let to = to.as_str().as_bytes();
    let folder = match to {
        [b'/', ..] => 0,
        _ => folder_of(path.as_slice()).len(),
    };
    if to.is_empty() || WORD_ROOM.saturating_sub(folder) < to.len() {
        return false;
    }
    path.truncate(folder);
    path.try_extend_from_slice(to).is_ok()
}

// Whether a path names something that this process has open, as /dev/stdout does behind its link: what stands behind it is not ours to replace.
pub(crate) fn is_open(path: &[u8]) -> bool {
    path.starts_with(b"/proc/") || path.starts_with(b"/dev/fd/")
}

// Follows links until there is none, or the path names something open.
pub(crate) fn resolve(rt: &HostRuntime, path: &mut Made) {
    for _ in 0..MOST_LINKS {
        if is_open(path.as_slice()) || !follow(rt, path) {
            break;
        }
    }
}
