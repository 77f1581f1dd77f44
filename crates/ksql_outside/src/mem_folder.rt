ghost use Rattle.std.specs.Prelude.{◌≡◌, ◌≤◌, ◌∷◌, ◌++◌, [], IfOk, OnOk, IsErr, IsErrOf, Some, None, vec_len};
ghost use Rattle.std.specs.Option.{option_copied};
ghost use Rattle.ksql_outside.specs.Outside.{read_bytes, content, AreNamesDistinct, MayJoin, read_limit};
ghost use Rattle.ksql_outside.specs.Memory.{next_answer, next_count};

use crate::folder::{Folder, ReadFail, answer_of};
use ksql_types::{Bytes, Chars, Word};
use std::alloc::Global;
use std::marker::Model;

/// Files in memory, some of whose reads fail.
#[derive(Debug, Drop)]
pub struct MemFolder {
    files: Vec<(Chars, Bytes)>,
    failing: Vec<u64>,
    reads: u64,
    failed: Vec<Word>,
}

impl Model for MemFolder {
    ghost use Rattle.ksql_outside.specs.Memory.{FolderState};

    ghost Value = { FolderState };

    ghost view = { λ f. record { files = f.files.items; failing = f.failing.items; reads = f.reads; failed = f.failed.items } };
}

impl MemFolder {
    /// A folder of these files, whose names differ. `failing` lists the reads that fail, counted from 1.
    pub fn new(alloc: Global, files: Vec<(Chars, Bytes)>, failing: Vec<u64>) -> MemFolder
        requires { AreNamesDistinct files.items }
        ensures { result ≡ record { files = files.items; failing = failing.items; reads = 0; failed = [] } }
    {
        MemFolder {
            files,
            failing,
            reads: 0,
            failed: Vec::new(alloc),
        }
    }

    fn find(&self, name: &str) -> Option<&[u8]>
        ensures { option_copied result ≡ content name.now self.now.files }
    {
        for (file_name, bytes) in &self.files {
            if file_name.items() == name {
                return Some(bytes.items());
            }
        }
        None
    }
}

impl Folder for MemFolder {
    ghost use Rattle.std.specs.Prelude.{Some};

    ghost files = { λ f. Some f.files };

    ghost failed = { λ f. f.failed };

    fn read(&mut self, alloc: Global, name: &str) -> Result<Vec<u8>, ReadFail>
        ensures told { IfOk result (λ bytes. read_bytes name.now self.old.files ≡ Some bytes.items) }
        ensures short { IfOk result (λ bytes. vec_len bytes ≤ read_limit) }
        ensures missing { content name.now self.old.files ≡ None → IsErr result }
        ensures same_files { self.new.files ≡ self.old.files }
        ensures grows { MayJoin self.old.failed self.new.failed name.now }
        ensures cause { IsErrOf result ReadFail.Failed → self.new.failed ≡ self.old.failed ++ name.now ∷ [] }

        // What this folder promises beyond `Folder`.
        ensures answers { IfOk result (λ bytes. next_answer self.old name.now ≡ Some bytes.items) }
        ensures fails { IsErrOf result ReadFail.Failed → next_answer self.old name.now ≡ None }
        ensures none_joins { OnOk result (self.new.failed ≡ self.old.failed) }
        ensures memory { IsErrOf result ReadFail.OutOfMemory → self.new.failed ≡ self.old.failed }
        ensures counts { self.new.reads ≡ next_count self.old.reads }
        ensures same_failing { self.new.failing ≡ self.old.failing }
    {
        self.reads = self.reads.saturating_add(1);
        let failed_name = Word::of(String::from_str(alloc, name)?);
        self.failed.reserve(1)?;
        if !self.failing.contains(&self.reads) {
            if let Some(bytes) = self.find(name) {
                return Ok(answer_of(alloc, bytes)?);
            }
        }
        match self.failed.push(failed_name) {
            Ok(()) => Err(ReadFail::Failed),
            Err(_) => unreachable!(),
        }
    }
}
