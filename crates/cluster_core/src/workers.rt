//! The live workers, in ascending order.
ghost use Rattle.std.specs.Prelude.{◌≡◌, IfOk, filter, nat_lt};
ghost use Rattle.std.specs.List.{range_with_len};
ghost use Rattle.cluster_laws.specs.Progress.{with_worker, without_worker};

use std::alloc::{AllocError, Global};

/// The workers 1 to `count`.
pub fn first_workers(alloc: Global, count: u32) -> Result<Vec<u32>, AllocError>
    ensures { IfOk result (λ live. live.items ≡ range_with_len 1 count) }
{
    let mut live = Vec::new(alloc);
    for before in 0..count {
        live.push(before + 1)?;
    }
    Ok(live)
}

/// The live workers and one more.
pub fn with_worker(alloc: Global, live: &[u32], worker: u32) -> Result<Vec<u32>, AllocError>
    ensures { IfOk result (λ more. more.items ≡ with_worker worker live.now) }
{
    let mut more = lower(alloc, live, worker)?;
    more.push(worker)?;
    more.append(&mut higher(alloc, live, worker)?)?;
    Ok(more)
}

/// The live workers without one.
pub fn without_worker(alloc: Global, live: &[u32], worker: u32) -> Result<Vec<u32>, AllocError>
    ensures { IfOk result (λ rest. rest.items ≡ without_worker worker live.now) }
{
    let mut rest = lower(alloc, live, worker)?;
    rest.append(&mut higher(alloc, live, worker)?)?;
    Ok(rest)
}

/// The workers with lower numbers.
fn lower(alloc: Global, live: &[u32], worker: u32) -> Result<Vec<u32>, AllocError>
    ensures { IfOk result (λ some. some.items ≡ filter (λ w. nat_lt w worker) live.now) }
{
    let mut some = Vec::new(alloc);
    for other in live {
        if *other < worker {
            some.push(*other)?;
        }
    }
    Ok(some)
}

/// The workers with higher numbers.
fn higher(alloc: Global, live: &[u32], worker: u32) -> Result<Vec<u32>, AllocError>
    ensures { IfOk result (λ some. some.items ≡ filter (λ w. nat_lt worker w) live.now) }
{
    let mut some = Vec::new(alloc);
    for other in live {
        if worker < *other {
            some.push(*other)?;
        }
    }
    Ok(some)
}
