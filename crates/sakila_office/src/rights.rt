//! Who may read a chain's two files. They hold tokens, so only its owner may read a file that the program makes.

use std::fs::{self, OpenOptions, Permissions};
use std::io::ErrorKind;
use std::os::unix::fs::{OpenOptionsExt, PermissionsExt};

/// The rights of a file that only its owner reads and writes.
const OWNERS_ALONE: u32 = 0o600;

/// Makes the file for its owner alone, if there is none. A failure shows when the file is opened.
pub(crate) fn make_owned(rt: &HostRuntime, file: &str) {
    let made = OpenOptions::new()
        .write(true)
        .create_new(true)
        .mode(OWNERS_ALONE)
        .open(rt, file);
    if let Ok(made) = made {
        // The process's mask may have taken rights from the owner too.
        let _ = made.set_permissions(Permissions::from_mode(OWNERS_ALONE));
    }
}

/// Returns the path of the log that will be made beside the file, if there is no log yet.
pub(crate) fn missing_log(rt: &HostRuntime, file: &str) -> Option<String> {
    // The log is beside the file itself, wherever a link to it is.
    let real = fs::canonicalize(rt, file).ok()?;
    let log = format!(in rt.alloc(); "{}-wal", real.as_str()).ok()?;
    match fs::symlink_metadata(rt, log.as_str()) {
        Err(e) if e.kind() == ErrorKind::NotFound => Some(log),
        Ok(_) | Err(_) => None,
    }
}

/// Restricts a log that was missing, and is made now, to its owner. The store makes the log with the rights of its
/// file, so whoever could open the log before may read that file too.
pub(crate) fn own(rt: &HostRuntime, log: &Option<String>) {
    if let Some(log) = log {
        let _ = fs::set_permissions(rt, log.as_str(), Permissions::from_mode(OWNERS_ALONE));
    }
}
