ghost use Rattle.std.specs.Prelude.{◌≡◌, ◌<◌, ◌≤◌, length, take, IfOk, OnOk, OnErr, IsOk};
ghost use Rattle.ksql_outside.specs.Outside.{followed_by, Rose, WrotePrefix};

/// A write failed, and wrote nothing of its piece.
#[derive(Clone, Copy, Debug, PartialEq, Eq)]
pub struct Failed;

/// A target for bytes. A write may take only the first bytes of its piece.
pub trait Sink {
    ghost use Rattle.std.specs.Prelude.{Option, List, ℕ};

    // The bytes written so far, if they are known.
    ghost written: { Self → Option (List ℕ) };

    // The number of failed writes. It never falls, and saturates at the greatest u64.
    ghost faults: { Self → ℕ };

    /// Writes the first bytes of the piece and returns how many: at least one, unless the piece is empty.
    fn write(&mut self, piece: &[u8]) -> Result<usize, Failed>
        ensures front { IfOk result (λ k. k ≤ length piece.now) }
        ensures some { IfOk result (λ k. 0 < length piece.now → 0 < k) }
        ensures appends { IfOk result (λ k. written self.new ≡ followed_by (written self.old) (take k piece.now)) }
        ensures nothing { OnErr result (written self.new ≡ written self.old) }
        ensures count { faults self.old ≤ faults self.new }
        ensures cause { OnErr result (Rose (faults self.old) (faults self.new)) };
}

/// Writes the whole piece, in as many writes as needed, until one fails. Takes no memory. `Ok` means that no byte was
/// left out, even if the sink doesn't tell what was written.
pub fn write_whole<K: Sink>(out: &mut K, piece: &[u8]) -> Result<(), Failed>
    ensures whole { OnOk result (K.written out.new ≡ followed_by (K.written out.old) piece.now) }
    ensures prefix { OnErr result (WrotePrefix (K.written out.old) (K.written out.new) piece.now) }
    ensures count { K.faults out.old ≤ K.faults out.new }
    ensures cause { OnErr result (Rose (K.faults out.old) (K.faults out.new)) }
    ensures succeeds { ¬ Rose (K.faults out.old) (K.faults out.new) → IsOk result }
{
    let mut done = 0;
    while done < piece.len() {
        done += out.write(&piece[done..])?;
    }
    Ok(())
}
