//! A watch that reports nothing.

use till_work::Watch;

/// Reports nothing.
#[derive(Clone, Copy)]
pub struct Quiet;

impl Watch for Quiet {
    fn sends(&mut self, _sent: u32, _all: u32) {}
}
