ghost use Rattle.std.specs.Prelude.{◌≡◌, ◌≤◌, [], take, vec_len, IfOk, IfSome};
ghost use Rattle.ksql_outside.specs.Outside.{read_limit};

use crate::folder::{Folder, READ_LIMIT, ReadFail};
use ksql_types::Word;
use std::alloc::Global;
use std::io::{ErrorKind, Read};
use std::marker::Model;
use std::rt::Files;
use std::{fs, io};

/// The files of the working folder, which contracts see as the names whose reads failed. A name is a path.
#[derive(Drop)]
pub struct DirFolder<R> {
    rt: R,
    failed: Vec<Word>,
}

impl<R> Model for DirFolder<R> {
    ghost use Rattle.std.specs.Prelude.{List, ℕ};

    ghost Value = { List (List ℕ) };

    ghost view = { λ d. d.failed.items };
}

impl<R: Files> DirFolder<R> {
    /// The working folder, before any read failed. Takes no memory.
    pub fn new(rt: R, alloc: Global) -> DirFolder<R>
        ensures { result ≡ [] }
    {
        DirFolder {
            rt,
            failed: Vec::new(alloc),
        }
    }
}

impl<R: Files> Folder for DirFolder<R> {
    ghost use Rattle.std.specs.Prelude.{None};

    ghost files = { λ _. None };

    ghost failed = { λ d. d };

    fn read(&mut self, alloc: Global, name: &str) -> Result<Vec<u8>, ReadFail> {
        let failed_name = Word::of(String::from_str(alloc, name)?);
        self.failed.reserve(1)?;
        match bytes_of_file(&self.rt, alloc, name) {
            Ok(bytes) => Ok(bytes),
            Err(error) => {
                if error.kind() == ErrorKind::OutOfMemory {
                    return Err(ReadFail::OutOfMemory);
                }
                match self.failed.push(failed_name) {
                    Ok(()) => Err(ReadFail::Failed),
                    Err(_) => unreachable!(),
                }
            }
        }
    }
}

#[tactic(auto, unfolding(crate::specs::Outside::read_limit))]
fn bytes_of_file<R: Files>(rt: &R, alloc: Global, name: &str) -> io::Result<Vec<u8>>
    ensures { IfOk result (λ bytes. vec_len bytes ≤ read_limit) }
{
    first_bytes(alloc, fs::open(rt, name)?, READ_LIMIT)
}

/// Up to `limit` bytes from the reader.
fn first_bytes<F: Read + Drop>(alloc: Global, reader: F, limit: usize) -> io::Result<Vec<u8>>
    ensures short { IfOk result (λ bytes. vec_len bytes ≤ limit) }
    ensures known { IfOk result (λ bytes. IfSome (F.remaining reader) (λ all. bytes.items ≡ take limit all)) }
{
    let mut bytes = Vec::new(alloc);
    reader.take(limit as u64).read_to_end(&mut bytes)?;
    bytes.truncate(limit);
    Ok(bytes)
}
