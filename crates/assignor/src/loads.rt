//! How many tasks each worker has.
ghost use Rattle.std.specs.Prelude.{◌≡◌, ◌+◌, ◌==◌, ◌<◌, ◌^◌, [], All, IfOk};
ghost use Rattle.assignor.specs.Rule.{how_many};
ghost use Rattle.assignor.specs.Loads.{comes_first, first_load, lightest_worker, load_among, loads_of, one_more, with_more};

use std::alloc::{AllocError, Global};

/// A worker's number, and its number of tasks.
#[derive(Clone, Copy, Debug)]
pub struct Load {
    pub worker: u32,
    pub tasks: usize,
}

impl Load {
    /// Whether this worker comes first: it has fewer tasks, or the same number of tasks and the smaller worker number.
    fn comes_first(self, other: Load) -> bool
        ensures { result ≡ comes_first self other }
    {
        self.tasks < other.tasks || (self.tasks == other.tasks && self.worker < other.worker)
    }

    /// The load with one more task, if `worker` is its worker.
    fn one_more(self, worker: u32) -> Load
        requires { self.tasks + 1 < 2 ^ 64 }
        ensures { result ≡ one_more worker self }
    {
        if worker == self.worker {
            Load {
                worker,
                tasks: self.tasks + 1,
            }
        } else {
            self
        }
    }
}

/// The loads of the live workers, all without tasks.
pub fn no_loads(alloc: Global, live: &[u32]) -> Result<Vec<Load>, AllocError>
    ensures { IfOk result (λ loads. loads.items ≡ loads_of live.now []) }
{
    let mut loads = Vec::new(alloc);
    for worker in live {
        loads.push(Load {
            worker: *worker,
            tasks: 0,
        })?;
    }
    Ok(loads)
}

/// Adds one task at this place: to its worker, if it has one.
pub fn add_task(loads: &mut [Load], place: Option<u32>)
    requires { All (λ load. load.tasks + 1 < 2 ^ 64) loads.old }
    ensures { loads.new ≡ with_more place loads.old }
{
    if let Some(worker) = place {
        add_to(loads, worker);
    }
}

fn add_to(loads: &mut [Load], worker: u32)
    requires { All (λ load. load.tasks + 1 < 2 ^ 64) loads.old }
    ensures { loads.new ≡ with_more (Some worker) loads.old }
{
    for load in loads.iter_mut() {
        *load = load.one_more(worker);
    }
}

/// The number of tasks of this worker; `None` if it is not among the loads.
pub fn load_among(loads: &[Load], worker: u32) -> Option<usize>
    ensures { result ≡ load_among worker loads.now }
{
    for load in loads {
        if load.worker == worker {
            return Some(load.tasks);
        }
    }
    None
}

/// How many workers have exactly `tasks` tasks.
pub fn workers_with(loads: &[Load], tasks: usize) -> usize
    ensures { result ≡ how_many (λ load. load.tasks == tasks) loads.now }
{
    let mut count = 0;
    for load in loads {
        if load.tasks == tasks {
            count += 1;
        }
    }
    count
}

/// The worker with the fewest tasks, of several the one with the smallest number; `None` if there are no workers.
pub fn lightest(loads: &[Load]) -> Option<u32>
    ensures { result ≡ lightest_worker loads.now }
{
    let mut best = None;
    for load in loads {
        best = Some(first_load(best, *load));
    }
    best.map(|load| load.worker)
}

fn first_load(best: Option<Load>, load: Load) -> Load
    ensures { Some result ≡ first_load best (Some load) }
{
    match best {
        Some(best) if !load.comes_first(best) => best,
        _ => load,
    }
}
