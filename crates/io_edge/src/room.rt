//! Bytes in memory, for which room was taken beforehand.

ghost use Rattle.std.specs.Prelude.{◌≡◌, ◌-◌, ◌++◌, [], min, take, length, IfOk};

use crate::NoMemory;
use std::alloc::{AllocError, Global};
use std::marker::Model;

/// Bytes, and the number of bytes that there is room for.
#[derive(Drop)]
pub(crate) struct RoomyBytes {
    bytes: Vec<u8>,
    room: usize,
}

impl Model for RoomyBytes {
    ghost use Rattle.io_edge.specs.Sinks.{Room};

    ghost Value = { Room };

    ghost use Rattle.std.specs.Prelude.{◌≤◌, vec_len, vec_capacity};

    ghost view = { λ m. record { bytes = m.bytes.items; room = m.room } };

    ghost invariant = { λ m. (vec_len m.bytes ≤ m.room) × (m.room ≤ vec_capacity m.bytes) };
}

impl RoomyBytes {
    pub(crate) fn with_room(alloc: Global, room: usize) -> Result<RoomyBytes, NoMemory>
        ensures { IfOk result (λ m. m ≡ record { bytes = []; room = room }) }
    {
        Ok(RoomyBytes {
            bytes: Vec::with_capacity(alloc, room)?,
            room,
        })
    }

    pub(crate) fn bytes(&self) -> &[u8]
        ensures { result.now ≡ self.now.bytes }
    {
        self.bytes.as_slice()
    }

    /// Appends the first bytes of a piece, at most so many and as many as there is room for.
    pub(crate) fn append(&mut self, piece: &[u8], most: usize) -> usize
        ensures count { result ≡ min (min (length piece.now) most) (self.old.room - length self.old.bytes) }
        ensures bytes { self.new ≡ record self.old { bytes = self.old.bytes ++ take result piece.now } }
    {
        let count = piece.len().min(most).min(self.room - self.bytes.len());
        match self.bytes.extend_from_slice(&piece[..count]) {
            Ok(()) => count,
            Err(AllocError) => unreachable!(),
        }
    }
}
