//! The pool and its tickets.
ghost use Rattle.std.specs.Prelude.{◌≡◌, ℕ, ◌+◌, ◌≤◌, None, Some, length, IsOk, OnOk, OnErr, option_map};
ghost use Rattle.std.specs.FinMap as map;
ghost use Rattle.row_pool.specs.Pool.{blocks_of, text_of, IsLive, Updates, blocks_under, used_blocks};

use crate::block::{Block, blocks_for, free_text, put_text, read_text};
use std::alloc::{AllocError, Global};
use std::marker::Model;

/// The least number of blocks by which a pool grows.
const CHUNK: u64 = 64;

/// Texts in 64-byte blocks, each under the ticket that `put` returns for it.
///
/// A text of `n` bytes takes `max(1, ceil(n / 64))` blocks. Only `reserve` takes memory.
#[derive(Drop)]
pub struct Pool {
    blocks: Vec<Block>,
    // The first free block, if any.
    free: usize,
    // How many blocks are free.
    spare: u64,
}

impl Model for Pool {
    ghost use Rattle.std.specs.Prelude.{ℕ};
    ghost use Rattle.row_pool.specs.Pool.{Texts, texts_code};

    ghost Value = { Texts };

    ghost coded = { texts_code };

    ghost use Rattle.row_pool.specs.Layout.{texts_in, IsSound};

    ghost view = { λ p. record { texts = texts_in p.blocks.items; spare = p.spare } };

    ghost invariant = { λ p. IsSound p.blocks.items p.free p.spare };
}

/// The right to one text of a pool.
///
/// It works only with the pool that made it, and is live from `put` to `free`. It can't be copied or dropped: only
/// `Pool::free` consumes it.
pub struct Ticket {
    first: usize,
}

impl Model for Ticket {
    ghost use Rattle.std.specs.Prelude.{ℕ};

    ghost Value = { ℕ };

    ghost view = { λ t. t.first };
}

impl Pool {
    /// An empty pool. `reserve` takes its memory from `alloc`.
    pub fn new(alloc: Global) -> Self
        ensures empty { result.texts ≡ map.empty }
        ensures used { used_blocks result ≡ 0 }
        ensures spare { result.spare ≡ 0 }
    {
        Pool {
            blocks: Vec::new(alloc),
            free: 0,
            spare: 0,
        }
    }

    /// Makes `spare` at least `n`. It may have grown even if it fails, which means out of memory.
    pub fn reserve(&mut self, n: u64) -> Result<(), AllocError>
        ensures ok { OnOk result (n ≤ self.new.spare) }
        ensures enough { n ≤ self.old.spare → IsOk result }
        ensures unchanged { n ≤ self.old.spare → self.new ≡ self.old }
        ensures grows { self.old.spare ≤ self.new.spare }
        ensures texts { self.new.texts ≡ self.old.texts }
    {
        if n > self.spare {
            let missing = (n - self.spare).max(CHUNK);
            self.blocks.reserve(missing as usize)?;
            for _ in 0..missing {
                self.add_block()?;
            }
        }
        Ok(())
    }

    // Adds one free block.
    fn add_block(&mut self) -> Result<(), AllocError>
        ensures ok { OnOk result (self.new.spare ≡ self.old.spare + 1) }
        ensures err { OnErr result (self.new ≡ self.old) }
        ensures texts { self.new.texts ≡ self.old.texts }
    {
        self.blocks.push(Block::free(self.free))?;
        self.free = self.blocks.len() - 1;
        self.spare += 1;
        Ok(())
    }

    /// Stores a text in free blocks. It takes no memory.
    pub fn put(&mut self, text: &[u8]) -> Ticket
        requires { blocks_of (length text.now) ≤ self.old.spare }
        ensures fresh { text_of self.old result ≡ None }
        ensures updates { Updates self.old self.new result (Some text.now) }
        ensures spare { self.new.spare + blocks_of (length text.now) ≡ self.old.spare }
        ensures used { used_blocks self.new ≡ used_blocks self.old + blocks_of (length text.now) }
    {
        let first = self.free;
        self.free = put_text(&mut self.blocks, first, text);
        self.spare -= blocks_for(text.len()) as u64;
        Ticket { first }
    }

    /// The length of a ticket's text, in bytes.
    pub fn len_of(&self, ticket: &Ticket) -> u64
        requires { IsLive self.now ticket.now }
        ensures { option_map length (text_of self.now ticket.now) ≡ Some result }
    {
        self.text_len(ticket.first) as u64
    }

    /// Copies a ticket's text into a slice of the same length.
    pub fn get(&self, ticket: &Ticket, into: &mut [u8])
        requires { option_map length (text_of self.now ticket.now) ≡ Some (length into.old) }
        ensures { text_of self.now ticket.now ≡ Some into.new }
    {
        read_text(&self.blocks, ticket.first, into);
    }

    /// Consumes a ticket, and frees its blocks.
    pub fn free(&mut self, ticket: Ticket)
        requires { IsLive self.old ticket }
        ensures updates { Updates self.old self.new ticket None }
        ensures spare { self.new.spare ≡ self.old.spare + blocks_under self.old ticket }
        ensures used { used_blocks self.new + blocks_under self.old ticket ≡ used_blocks self.old }
    {
        let Ticket { first } = ticket;
        let count = blocks_for(self.text_len(first));
        free_text(&mut self.blocks, first, count, self.free);
        self.free = first;
        self.spare += count as u64;
    }

    // The length of the text that begins in block `first`.
    fn text_len(&self, first: usize) -> usize
        requires { IsLive self.now first }
        ensures { option_map length (text_of self.now first) ≡ Some result }
    {
        match self.blocks[first].text_len {
            Some(len) => len,
            None => unreachable!(),
        }
    }

    /// The number of blocks that the texts of live tickets take.
    pub fn used(&self) -> u64
        ensures { result ≡ used_blocks self.now }
    {
        self.blocks.len() as u64 - self.spare
    }

    /// The number of free blocks.
    pub fn spare(&self) -> u64
        ensures { result ≡ self.now.spare }
    {
        self.spare
    }
}
