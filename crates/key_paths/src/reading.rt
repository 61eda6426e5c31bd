//! How a text is read as a path, byte by byte.
ghost use Rattle.std.specs.Prelude.{◌≡◌, ◌^◌, ◌<◌, ◌↔◌, IsTrue, length, MatchOption};
ghost use Rattle.key_paths.specs.Paths.{IsPath, IsFault, is_path};
ghost use Rattle.key_paths.specs.Reading.{step_of, dot_step, first_step, inner_step, end_of};

use crate::refusal::PathKind;

/// How many segments a path has at most.
const MOST_SEGMENTS: u32 = 8;

/// How many bytes a segment has at most.
const LONGEST_SEGMENT: u32 = 64;

/// How far a text has been read: how many segments have begun, and how many bytes the last one has.
#[derive(Clone, Copy)]
pub struct Reached {
    pub segments: u32,
    pub width: u32,
}

/// The first byte at which a text stops being the beginning of a path, or its length, with what is
/// wrong there.
pub fn first_fault(text: &[u8]) -> Option<(u32, PathKind)>
    requires { length text.now < 2 ^ 32 }
    ensures { MatchOption result (IsPath text.now) (λ fault. IsFault text.now fault.0 fault.1) }
{
    let mut reached = Reached {
        segments: 0,
        width: 0,
    };
    for (at, byte) in text.iter().enumerate() {
        match step(reached, *byte) {
            Ok(next) => reached = next,
            Err(kind) => return Some((at as u32, kind)),
        }
    }
    match end(reached) {
        Ok(()) => None,
        Err(kind) => Some((text.len() as u32, kind)),
    }
}

/// Whether a text is a path.
pub fn is_path(text: &[u8]) -> bool
    requires { length text.now < 2 ^ 32 }
    ensures test { result ≡ is_path text.now }
    ensures path { IsTrue result ↔ IsPath text.now }
{
    match first_fault(text) {
        None => true,
        Some(_fault) => false,
    }
}

/// Reads one byte more.
fn step(reached: Reached, byte: u8) -> Result<Reached, PathKind>
    ensures { result ≡ step_of reached byte }
{
    if byte == b'.' {
        after_dot(reached)
    } else if reached.segments == 0 {
        Err(PathKind::NoDot)
    } else if reached.width == 0 {
        after_first(reached, byte)
    } else {
        after_inner(reached, byte)
    }
}

/// Reads a dot.
fn after_dot(reached: Reached) -> Result<Reached, PathKind>
    ensures { result ≡ dot_step reached }
{
    if reached.segments != 0 && reached.width == 0 {
        Err(PathKind::EmptySegment)
    } else if MOST_SEGMENTS <= reached.segments {
        Err(PathKind::TooDeep)
    } else {
        Ok(Reached {
            segments: reached.segments + 1,
            width: 0,
        })
    }
}

/// Reads a segment's first byte.
fn after_first(reached: Reached, byte: u8) -> Result<Reached, PathKind>
    ensures { result ≡ first_step reached byte }
{
    if byte.is_ascii_alphabetic() || byte == b'_' {
        Ok(Reached {
            segments: reached.segments,
            width: 1,
        })
    } else {
        Err(PathKind::BadByte)
    }
}

/// Reads another byte of a segment.
fn after_inner(reached: Reached, byte: u8) -> Result<Reached, PathKind>
    ensures { result ≡ inner_step reached byte }
{
    if !(byte.is_ascii_alphanumeric() || byte == b'_') {
        Err(PathKind::BadByte)
    } else if LONGEST_SEGMENT <= reached.width {
        Err(PathKind::SegmentTooLong)
    } else {
        Ok(Reached {
            segments: reached.segments,
            width: reached.width + 1,
        })
    }
}

/// What is wrong where a text ends.
fn end(reached: Reached) -> Result<(), PathKind>
    ensures { result ≡ end_of reached }
{
    if reached.segments == 0 {
        Err(PathKind::NoDot)
    } else if reached.segments != 1 && reached.width == 0 {
        Err(PathKind::EmptySegment)
    } else {
        Ok(())
    }
}
