//! Blocks, and the texts that run through them.
ghost use Rattle.std.specs.Prelude.{◌≡◌, ℕ, ◌+◌, ◌-◌, ◌<◌, ◌≤◌, ◌++◌, None, length, take, drop};
ghost use Rattle.row_pool.specs.Pool.{blocks_of};
ghost use Rattle.row_pool.specs.Layout.{bytes_at, next_at, len_at, after, visits, text_from, IsChain, IsPut, IsFreed};

/// The bytes in a block.
pub(crate) const BLOCK: usize = 64;

/// A block: free, or part of a text.
#[derive(Clone, Copy)]
pub(crate) struct Block {
    pub bytes: [u8; BLOCK],
    /// The next block of its text, or of the list of free blocks. Meaningless in the last one.
    pub next: usize,
    /// The length of the text that begins here, if one does.
    pub text_len: Option<usize>,
}

impl Block {
    /// A free block that links to `next`.
    pub fn free(next: usize) -> Self
        ensures len { length result.bytes ≡ 64 }
        ensures next { result.next ≡ next }
        ensures text_len { result.text_len ≡ None }
    {
        Block {
            bytes: [0; BLOCK],
            next,
            text_len: None,
        }
    }

    /// Writes a piece of a text over the block's first bytes.
    pub fn fill(&mut self, piece: &[u8])
        requires { length piece.now ≤ 64 }
        ensures { self.new ≡ record self.old { bytes = piece.now ++ drop (length piece.now) self.old.bytes } }
    {
        self.bytes[..piece.len()].copy_from_slice(piece);
    }

    /// Copies the block's first bytes into a piece of a text.
    pub fn copy_to(&self, piece: &mut [u8])
        requires { length piece.old ≤ 64 }
        ensures { piece.new ≡ take (length piece.old) self.now.bytes }
    {
        piece.copy_from_slice(&self.bytes[..piece.len()]);
    }
}

/// The number of blocks that a text of this length takes.
pub(crate) fn blocks_for(len: usize) -> usize
    ensures { result ≡ blocks_of len }
{
    len.div_ceil(BLOCK).max(1)
}

/// Writes a text into the blocks from `first` on, with its length, and returns the block after its last.
pub(crate) fn put_text(blocks: &mut [Block], first: usize, text: &[u8]) -> usize
    requires { IsChain blocks.old first (blocks_of (length text.now)) }
    ensures put { IsPut blocks.old blocks.new first text.now }
    ensures behind { result ≡ after blocks.old first (blocks_of (length text.now)) }
{
    let behind = write_text(blocks, first, text);
    blocks[first].text_len = Some(text.len());
    behind
}

// Writes a text into the blocks from `first` on, and returns the block after its last.
fn write_text(blocks: &mut [Block], first: usize, text: &[u8]) -> usize
    requires { IsChain blocks.old first (blocks_of (length text.now)) }
    ensures stored { text_from blocks.new first (length text.now) ≡ text.now }
    ensures behind { result ≡ after blocks.old first (blocks_of (length text.now)) }
    ensures links { (i : ℕ) → next_at blocks.new i ≡ next_at blocks.old i }
    ensures lens { (i : ℕ) → len_at blocks.new i ≡ len_at blocks.old i }
    ensures others { (i : ℕ) → visits blocks.old i first (blocks_of (length text.now)) ≡ 0 → bytes_at blocks.new i ≡ bytes_at blocks.old i }
    ensures whole { (i : ℕ) → i < length blocks.new → length (bytes_at blocks.new i) ≡ 64 }
{
    let mut at = first;
    let mut rest = text;
    for _ in 0..blocks_for(text.len()) {
        let (piece, later) = rest.split_at(BLOCK.min(rest.len()));
        let block = &mut blocks[at];
        block.fill(piece);
        at = block.next;
        rest = later;
    }
    at
}

/// Reads the text that begins in `first`, and is as long as `into`.
pub(crate) fn read_text(blocks: &[Block], first: usize, into: &mut [u8])
    requires { IsChain blocks.now first (blocks_of (length into.old)) }
    ensures { into.new ≡ text_from blocks.now first (length into.old) }
{
    let mut at = first;
    for n in 0..blocks_for(into.len()) {
        let start = n * BLOCK;
        let end = into.len().min(start + BLOCK);
        let block = &blocks[at];
        block.copy_to(&mut into[start..end]);
        at = block.next;
    }
}

/// Puts the `count` blocks of the text that begins in `first` at the head of the free list, which began at `free`.
pub(crate) fn free_text(blocks: &mut [Block], first: usize, count: usize, free: usize)
    requires some { 0 < count }
    requires chain { IsChain blocks.old first count }
    ensures { IsFreed blocks.old blocks.new first count free }
{
    let last = last_of(blocks, first, count);
    blocks[last].next = free;
    blocks[first].text_len = None;
}

// The last of the `count` linked blocks from `first` on.
fn last_of(blocks: &[Block], first: usize, count: usize) -> usize
    requires some { 0 < count }
    requires chain { IsChain blocks.now first count }
    ensures { result ≡ after blocks.now first (count - 1) }
{
    let mut at = first;
    for _ in 1..count {
        at = blocks[at].next;
    }
    at
}
