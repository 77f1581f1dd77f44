//! A law of traces. The function does nothing.
ghost use Rattle.std.specs.Prelude.{◌≡◌, List};
ghost use Rattle.core_state.specs.declared.journal.JournalEntry.{JournalEntry};
ghost use Rattle.trace_text.specs.Trace.{blocks_of, Block, IsCut};

/// A journal is blocks in one way.
pub fn one_cut()
    ensures is { (journal : List JournalEntry) → IsCut journal (blocks_of journal) }
    ensures only { (journal : List JournalEntry) (blocks others : List Block) → IsCut journal blocks → IsCut journal others → blocks ≡ others }
{}
