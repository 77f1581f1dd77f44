ghost use Rattle.std.specs.Prelude.{◌≡◌};

use crate::sink::{Failed, Sink};
use std::marker::Model;

/// Standard output, which contracts see as the number of failed writes. The count saturates at the greatest u64.
#[derive(Drop)]
pub struct StdSink<R> {
    rt: R,
    faults: u64,
}

impl<R> Model for StdSink<R> {
    ghost use Rattle.std.specs.Prelude.{ℕ};

    ghost Value = { ℕ };

    ghost view = { λ s. s.faults };
}

impl<R: Print> StdSink<R> {
    /// Standard output, before any write failed.
    pub fn new(rt: R) -> StdSink<R>
        ensures { result ≡ 0 }
    {
        StdSink { rt, faults: 0 }
    }
}

impl<R: Print> Sink for StdSink<R> {
    ghost use Rattle.std.specs.Prelude.{None};

    ghost written = { λ _. None };

    ghost faults = { λ s. s };

    fn write(&mut self, piece: &[u8]) -> Result<usize, Failed> {
        let taken = self.rt.write_some(piece).unwrap_or(0);
        if taken == 0 && !piece.is_empty() {
            self.faults = self.faults.saturating_add(1);
            return Err(Failed);
        }
        Ok(taken)
    }
}
