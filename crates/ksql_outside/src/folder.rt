ghost use Rattle.std.specs.Prelude.{◌≡◌, ◌≤◌, ◌∷◌, ◌++◌, [], IfOk, IfSome, IsErr, IsErrOf, Some, None, take, vec_len};
ghost use Rattle.ksql_outside.specs.Outside.{read_bytes, content, MayJoin, read_limit};

use std::alloc::{AllocError, Global};

/// The most bytes that a read of a file returns.
pub(crate) const READ_LIMIT: usize = 67_108_865;

/// Why a read returned no bytes.
#[derive(Clone, Copy, Debug, PartialEq, Eq)]
pub enum ReadFail {
    /// The file is missing or couldn't be read; its name joins the names that failed.
    Failed,
    /// Out of memory.
    OutOfMemory,
}

/// Files that are read whole, by name.
pub trait Folder {
    ghost use Rattle.std.specs.Prelude.{Option, List, ℕ};

    // The files, as names and bytes, if they are known.
    ghost files: { Self → Option (List (List ℕ × List ℕ)) };

    // The names whose reads failed, latest last.
    ghost failed: { Self → List (List ℕ) };

    /// The bytes of the file with this name, cut off after 67,108,865 bytes. Allocates memory for the name before it
    /// looks for the file.
    fn read(&mut self, alloc: Global, name: &str) -> Result<Vec<u8>, ReadFail>
        ensures told { IfOk result (λ bytes. IfSome (files self.old) (λ all. read_bytes name.now all ≡ Some bytes.items)) }
        ensures short { IfOk result (λ bytes. vec_len bytes ≤ read_limit) }
        ensures missing { IfSome (files self.old) (λ all. content name.now all ≡ None → IsErr result) }
        ensures same_files { files self.new ≡ files self.old }
        ensures grows { MayJoin (failed self.old) (failed self.new) name.now }
        ensures cause { IsErrOf result ReadFail.Failed → failed self.new ≡ failed self.old ++ name.now ∷ [] };
}

impl From<AllocError> for ReadFail {
    ghost use Rattle.std.specs.Prelude.{◌≡◌};
    ghost use Rattle.ksql_outside.specs.declared.folder.ReadFail.TheVariants.{OutOfMemory};

    ghost from_gives = { λ _ fail. fail ≡ OutOfMemory };

    fn from(_error: AllocError) -> ReadFail {
        ReadFail::OutOfMemory
    }
}

/// What a read of a file with these bytes returns: at most the first 67,108,865 of them.
#[tactic(auto, unfolding(crate::specs::Outside::read_limit))]
pub(crate) fn answer_of(alloc: Global, bytes: &[u8]) -> Result<Vec<u8>, AllocError>
    ensures short { IfOk result (λ cut. vec_len cut ≤ read_limit) }
    ensures front { IfOk result (λ cut. cut.items ≡ take read_limit bytes.now) }
{
    front_of(alloc, bytes, READ_LIMIT)
}

fn front_of(alloc: Global, bytes: &[u8], limit: usize) -> Result<Vec<u8>, AllocError>
    ensures short { IfOk result (λ front. vec_len front ≤ limit) }
    ensures front { IfOk result (λ front. front.items ≡ take limit bytes.now) }
{
    let end = bytes.len().min(limit);
    Vec::from_slice(alloc, &bytes[..end])
}
