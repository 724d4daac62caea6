ghost use Rattle.std.specs.Prelude.{◌≡◌, ◌≤◌, ◌↔◌, length, take, IsOk, Err};
ghost use Rattle.std.specs.Io.KnownBytes.{Appends};
ghost use Rattle.core_terms.specs.Count.{Rose};

use crate::{PortError, Sink};

/// Writes `bytes` in as many calls as it takes, and answers how many of them went out.
///
/// It takes no memory, and answers `Memory` only where a call of the sink does.
pub fn write_all<K: Sink>(sink: &mut K, bytes: &[u8]) -> (usize, Result<(), PortError>)
    ensures count { result.0 ≤ length bytes.now }
    ensures bytes { Appends (K.written sink.old) (K.written sink.new) (take result.0 bytes.now) }
    ensures ok { IsOk result.1 ↔ (result.0 ≡ length bytes.now) }
    ensures fault { result.1 ≡ Err PortError.Fault → Rose (K.faults sink.old) (K.faults sink.new) }
    ensures never_falls { K.faults sink.old ≤ K.faults sink.new }
{
    let mut sent = 0;
    while sent < bytes.len() {
        match sink.write(&bytes[sent..]) {
            Ok(n) => sent += n,
            Err(error) => return (sent, Err(error)),
        }
    }
    (sent, Ok(()))
}
