//! Writing bytes, whole or as far as the writer takes them.

ghost use Rattle.std.specs.Prelude.{◌≡◌, ℕ, ◌<◌, true, false, List, [], ◌++◌, length, drop, IfOk, OnOk, OnErr};
ghost use Rattle.std.specs.Io.KnownBytes.{Appends};

use std::io::{self, ErrorKind, Write};

/// Writes the bytes from `at` on, as far as the writer takes them, and moves `at` past the written bytes.
///
/// Returns whether all bytes are written. If not, the writer would block. At an error bytes are left to write too.
pub fn write_part<W: Write>(writer: &mut W, bytes: &[u8], at: &mut usize) -> io::Result<bool>
    ensures sent { (sent : List ℕ) × Appends (W.contents writer.old) (W.contents writer.new) sent
        × (drop at.old bytes.now ≡ sent ++ drop at.new bytes.now) }
    ensures all { IfOk result (λ all. all ≡ true → drop at.new bytes.now ≡ []) }
    ensures part { IfOk result (λ all. all ≡ false → 0 < length (drop at.new bytes.now)) }
    ensures err { OnErr result (0 < length (drop at.new bytes.now)) }
{
    'write: for _ in 0..u64::MAX {
        if *at >= bytes.len() {
            return Ok(true);
        }
        match writer.write(&bytes[*at..]) {
            Ok(0) => return Err(io::Error::from(ErrorKind::WriteZero)),
            Ok(n) => *at += n,
            Err(e) => match e.kind() {
                ErrorKind::Interrupted => {}
                ErrorKind::WouldBlock => return Ok(false),
                _ => return Err(e),
            },
        }
    }
    if *at >= bytes.len() {
        return Ok(true);
    }
    Err(io::Error::from(ErrorKind::TimedOut))
}

/// Writes all the bytes. At an error a front of them is written, and not all; a writer that would wait is one.
pub fn write_whole<W: Write>(writer: &mut W, bytes: &[u8]) -> io::Result<()>
    ensures ok { OnOk result (Appends (W.contents writer.old) (W.contents writer.new) bytes.now) }
    ensures err { OnErr result ((front : List ℕ) × (rest : List ℕ) × (bytes.now ≡ front ++ rest) × (0 < length rest)
        × Appends (W.contents writer.old) (W.contents writer.new) front) }
{
    let mut at = 0;
    match write_part(writer, bytes, &mut at) {
        Ok(true) => Ok(()),
        Ok(false) => Err(io::Error::from(ErrorKind::WouldBlock)),
        Err(e) => Err(e),
    }
}
