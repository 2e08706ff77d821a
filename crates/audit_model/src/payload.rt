//! Payloads, which are ranges of arenas that they share.

ghost use Rattle.std.specs.Prelude.{◌≡◌, ◌+◌, ◌≤◌, IfOk, drop, take, vec_len};

use std::alloc::AllocError;
use std::marker::Model;
use std::sync::Arc;

/// The bytes of a datagram: a range of an arena, which other payloads share. The last payload of an
/// arena frees it.
#[derive(Debug, Drop)]
pub struct Payload {
    arena: Arc<Vec<u8>>,
    start: u32,
    len: u32,
}

impl Model for Payload {
    ghost use Rattle.std.specs.Prelude.{◌+◌, ◌≤◌, List, drop, take, vec_len, ℕ};

    ghost Value = { List ℕ };

    ghost view = { λ payload. take payload.len (drop payload.start payload.arena.value.items) };

    ghost invariant = { λ payload. payload.start + payload.len ≤ vec_len payload.arena.value };
}

impl Payload {
    ghost use Rattle.std.specs.Prelude.{◌≡◌, ◌==◌, length};

    /// The arena's bytes from `start` on, `len` of them. It allocates no memory, and fails only if
    /// the arena has 2^63 owners.
    pub fn of(arena: &Arc<Vec<u8>>, start: u32, len: u32) -> Result<Payload, AllocError>
        requires { start + len ≤ vec_len arena.now.value }
        ensures { IfOk result (λ payload. payload ≡ take len (drop start arena.now.value.items)) }
    {
        Ok(Payload {
            arena: Arc::try_clone(arena)?,
            start,
            len,
        })
    }

    pub fn len(&self) -> usize
        ensures { result ≡ length self.now }
    {
        self.len as usize
    }

    pub fn is_empty(&self) -> bool
        ensures { result ≡ (length self.now == 0) }
    {
        self.len == 0
    }

    pub fn as_slice(&self) -> &[u8]
        ensures { result.now ≡ self.now }
    {
        let start = self.start as usize;
        &self.arena[start..start + self.len as usize]
    }
}
