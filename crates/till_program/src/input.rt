//! Whether standard input has something to read.

use libc::STDIN_FILENO;
use libc::net::{POLLIN, poll};
use libc::types::pollfd;

/// Tests whether standard input has something to read, or ends, within that many milliseconds.
pub(crate) fn has_input(milliseconds: i32) -> bool {
    let mut asked = [pollfd {
        fd: STDIN_FILENO,
        events: POLLIN,
        revents: 0,
    }];
    poll(&mut asked, milliseconds) > 0
}
