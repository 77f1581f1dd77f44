ghost use Rattle.std.specs.Prelude.{◌≡◌, ◌-◌, ◌<◌, ◌≤◌, ◌↔◌, ◌++◌, [], length, take, IfOk, OnErr, IsErr, Some};
ghost use Rattle.ksql_outside.specs.Outside.{Rose, followed_by};
ghost use Rattle.ksql_outside.specs.Memory.{next_count, next_taken};

use crate::sink::{Failed, Sink};
use std::alloc::{AllocError, Global};
use std::marker::Model;

/// Bytes in memory, up to a limit.
#[derive(Debug, Drop)]
pub struct MemSink {
    bytes: Vec<u8>,
    free: u64,
    most: u64,
    faults: u64,
}

impl Model for MemSink {
    ghost use Rattle.std.specs.Prelude.{◌+◌, ◌≤◌, vec_len};
    ghost use Rattle.std.specs.Vec.{vec_capacity};
    ghost use Rattle.ksql_outside.specs.Memory.{SinkState};

    ghost Value = { SinkState };

    ghost view = { λ s. record { written = s.bytes.items; free = s.free; most = s.most; faults = s.faults } };

    ghost invariant = { λ s. (vec_len s.bytes + s.free ≤ vec_capacity s.bytes) × (1 ≤ s.most) };
}

impl MemSink {
    /// A sink that takes `room` bytes in all and at most `most` per write. It allocates all its memory here.
    pub fn new(alloc: Global, room: u64, most: u64) -> Result<MemSink, AllocError>
        requires { 1 ≤ most }
        ensures { IfOk result (λ sink. sink ≡ record { written = []; free = room; most = most; faults = 0 }) }
    {
        Ok(MemSink {
            bytes: Vec::with_capacity(alloc, room as usize)?,
            free: room,
            most,
            faults: 0,
        })
    }

    /// The bytes written so far.
    pub fn written(&self) -> &[u8]
        ensures { result.now ≡ self.now.written }
    {
        self.bytes.as_slice()
    }
}

impl Sink for MemSink {
    ghost use Rattle.std.specs.Prelude.{Some};

    ghost written = { λ s. Some s.written };

    ghost faults = { λ s. s.faults };

    fn write(&mut self, piece: &[u8]) -> Result<usize, Failed>
        ensures front { IfOk result (λ k. k ≤ length piece.now) }
        ensures some { IfOk result (λ k. 0 < length piece.now → 0 < k) }
        ensures appends { IfOk result (λ k. self.new.written ≡ self.old.written ++ take k piece.now) }
        ensures nothing { OnErr result (self.new.written ≡ self.old.written) }
        ensures count { self.old.faults ≤ self.new.faults }
        ensures cause { OnErr result (Rose self.old.faults self.new.faults) }

        // What this sink promises beyond `Sink`.
        ensures takes { IfOk result (λ k. k ≡ next_taken self.old piece.now) }
        ensures fails { IsErr result ↔ ((0 < length piece.now) × (self.old.free ≡ 0)) }
        ensures ok { IfOk result (λ k. self.new ≡ record self.old { written = self.old.written ++ take k piece.now; free = self.old.free - k }) }
        ensures err { OnErr result (self.new ≡ record self.old { faults = next_count self.old.faults }) }
    {
        if !piece.is_empty() && self.free == 0 {
            self.faults = self.faults.saturating_add(1);
            return Err(Failed);
        }
        let taken = piece.len().min(self.most.min(self.free) as usize);
        match self.bytes.extend_from_slice(&piece[..taken]) {
            Ok(()) => self.free -= taken as u64,
            Err(_) => unreachable!(),
        }
        Ok(taken)
    }
}
