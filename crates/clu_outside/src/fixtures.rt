//! Files of the system as tests lay them out, look at them and take them away.

use std::fs;

/// Writes a file of the system, and says whether that went well.
pub(crate) fn lays(rt: &HostRuntime, name: &str, bytes: &[u8]) -> bool {
    fs::write(rt, name, bytes).is_ok()
}

/// Whether the system has a file of that name with exactly these bytes.
pub(crate) fn has(rt: &HostRuntime, name: &str, bytes: &[u8]) -> bool {
    match fs::read(rt, name) {
        Ok(held) => held.as_slice() == bytes,
        Err(_) => false,
    }
}

/// Takes a file of the system away, so that a run leaves none, and says whether that went well.
pub(crate) fn removes(rt: &HostRuntime, name: &str) -> bool {
    fs::remove_file(rt, name).is_ok()
}
