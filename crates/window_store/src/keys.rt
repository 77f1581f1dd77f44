//! The bytes of a window in the store: those of its key, and its start in eight bytes.
ghost use Rattle.std.specs.Prelude.{◌≡◌, ◌≤◌, IfOk, OnOk, length};
ghost use Rattle.std.specs.Int.{w64, from_be_bytes};
ghost use Rattle.window_store.specs.Windows.{under, start_of};

use ksql_types::Bytes;
use std::alloc::{AllocError, Global};

/// The bytes of the window with this key and start.
pub(crate) fn window_key(alloc: Global, key: &[u8], start: u64) -> Result<Bytes, AllocError>
    ensures { IfOk result (λ bytes. bytes ≡ under key.now start) }
{
    let mut bytes = Vec::with_capacity(alloc, key.len() + 8)?;
    put_window_key(&mut bytes, key, start)?;
    Ok(Bytes::of(bytes))
}

/// Replaces a buffer's content by those bytes. Takes no memory if the buffer has room for them.
#[tactic(auto, unfolding(record_codec::specs::Spelling::eight))]
pub fn put_window_key(buffer: &mut Vec<u8>, key: &[u8], start: u64) -> Result<(), AllocError>
    ensures { OnOk result (buffer.new.items ≡ under key.now start) }
{
    buffer.clear();
    buffer.extend_from_slice(key)?;
    buffer.extend_from_slice(&start.to_be_bytes())
}

/// The start in such bytes.
#[tactic(auto, unfolding(crate::specs::Windows::start_of))]
pub(crate) fn start_of(at: &[u8]) -> u64
    requires { 8 ≤ length at.now }
    ensures { result ≡ start_of at.now }
{
    number_in(&at[at.len() - 8..])
}

/// The number in eight bytes.
pub(crate) fn number_in(bytes: &[u8]) -> u64
    requires { length bytes.now ≡ 8 }
    ensures { result ≡ from_be_bytes w64 bytes.now }
{
    u64::from_be_bytes([
        bytes[0], bytes[1], bytes[2], bytes[3], bytes[4], bytes[5], bytes[6], bytes[7],
    ])
}
