ghost use Rattle.std.specs.Prelude.{◌≡◌, ◌≢◌, ◌+◌, ◌<◌, ◌≤◌, ◌++◌, length, IfOk, IfSome, OnOk, MatchResult, Err};
ghost use Rattle.std.specs.Io.KnownBytes.{Consumes, IsAtEnd};
ghost use Rattle.core_terms.specs.Count.{Rose};
ghost use Rattle.elim_ports.specs.Reading.{ReadsAll};
ghost use Rattle.elim_ports.specs.declared.reading.ReadError.TheVariants.{Memory};

use crate::copying::PIECE;
use crate::{PortError, Source};
use core_terms::Items;
use std::alloc::{AllocError, Global};
use thiserror::Error;

/// Why a source was not read to its end.
///
/// `Fault` and `Memory` are those of `PortError`; `TooLong` says that more bytes came than were allowed.
#[derive(Clone, Copy, Debug, PartialEq, Eq, Error)]
pub enum ReadError {
    #[error("Fault")]
    Fault,
    #[error("TooLong")]
    TooLong,
    #[error("Memory")]
    Memory,
}

impl From<PortError> for ReadError {
    ghost use Rattle.std.specs.Prelude.{◌≡◌};
    ghost use Rattle.elim_ports.specs.Errors.{read_error_of};

    ghost from_gives = { λ p e. e ≡ read_error_of p };

    fn from(error: PortError) -> ReadError {
        match error {
            PortError::Fault => ReadError::Fault,
            PortError::Memory => ReadError::Memory,
        }
    }
}

impl From<AllocError> for ReadError {
    ghost use Rattle.std.specs.Prelude.{◌≡◌};

    ghost from_gives = { λ _ e. e ≡ Memory };

    fn from(_error: AllocError) -> ReadError {
        ReadError::Memory
    }
}

/// Reads `source` to its end.
///
/// It stops at `limit + 1` bytes. The bytes that were read before an error are gone from the source.
pub fn read_all<S: Source>(
    alloc: Global,
    source: &mut S,
    limit: u32,
) -> Result<Items<u8>, ReadError>
    ensures came { ReadsAll (S.left source.old) (S.left source.new) result limit }
    ensures whole { IfSome (S.left source.old) (λ left. IfOk result (λ bytes. bytes ≡ left)) }
    ensures end { OnOk result (IsAtEnd (S.left source.new)) }
    ensures within { IfOk result (λ bytes. length bytes ≤ limit) }
    ensures too_long { IfSome (S.left source.old)
        (λ left. result ≡ Err ReadError.TooLong → limit < length left) }
    ensures fault { result ≡ Err ReadError.Fault → Rose (S.faults source.old) (S.faults source.new) }
    ensures never_falls { S.faults source.old ≤ S.faults source.new }
{
    let limit = limit as usize;
    let mut bytes = Vec::new(alloc);
    while bytes.len() <= limit {
        let room = limit + 1 - bytes.len();
        if read_piece(source, &mut bytes, room)? == 0 {
            return Ok(Items::from_vec(bytes));
        }
    }
    Err(ReadError::TooLong)
}

/// One read of at most `most` bytes, which go to the end of `bytes`. Their room is made first, so that none is lost.
fn read_piece<S: Source>(
    source: &mut S,
    bytes: &mut Vec<u8>,
    most: usize,
) -> Result<usize, ReadError>
    requires { 0 < most }
    ensures came { (piece : _) × Consumes (S.left source.old) (S.left source.new) piece
        × (bytes.new.items ≡ bytes.old.items ++ piece) × (length piece ≤ most)
        × MatchResult result (λ n. n ≡ length piece) (λ _. length piece ≡ 0) }
    ensures end { IfOk result (λ n. n ≡ 0 → IsAtEnd (S.left source.new)) }
    ensures fault { result ≡ Err ReadError.Fault → Rose (S.faults source.old) (S.faults source.new) }
    ensures never_falls { S.faults source.old ≤ S.faults source.new }
    ensures short { result ≢ Err ReadError.TooLong }
{
    let most = most.min(PIECE);
    bytes.reserve(most)?;
    let mut piece = [0u8; PIECE];
    let n = source.read(&mut piece[..most])?;
    bytes.extend_from_slice(&piece[..n]).unwrap();
    Ok(n)
}
