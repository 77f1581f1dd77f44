//! Drives a script through COUNT pseudo-random schedules, `schedules COUNT`, in which workers come, go and are lost:
//! the final report must be the one that a single worker fed the same records gives. It prints how many reports were
//! equal, or names the first schedule with a different one.
#![tactic(auto)]

mod drawing;
mod random;
mod scene;

use crate::drawing::{draw, feeds_of};
use crate::random::Random;
use crate::scene::Scene;
use anyhow::{Context, Result, ensure};
use std::alloc::Global;
use std::env;
use std::env::Env;
use std::rt::Files;

/// The seed of the schedules.
const SEED: u64 = 20_231_128;

fn main(rt: HostRuntime) -> Result<()> {
    let count = count_of(&rt)?;
    compare_all(&rt, count)?;
    println!(rt; "{count} schedules: {count} equal reports")?;
    Ok(())
}

/// The number of schedules that the command line asks for.
fn count_of<R: AllocGlobal + Env>(rt: &R) -> Result<u32> {
    let word = env::args(rt)?.nth(1).context("schedules COUNT")?;
    Ok(word.as_str().parse::<u32>().context("schedules COUNT")?)
}

/// Compares this many schedules.
fn compare_all<R: AllocGlobal + Files>(rt: &R, count: u32) -> Result<()> {
    let alloc = rt.alloc();
    let scene = Scene::read(rt)?;
    let mut random = Random::new(SEED);
    for before in 0..count {
        let same = is_same(alloc, &scene, &mut random)?;
        ensure!(same, "schedule {} has another report", before + 1);
    }
    Ok(())
}

/// Whether the next schedule drawn gives the same report as its feeds alone.
fn is_same(alloc: Global, scene: &Scene, random: &mut Random) -> Result<bool> {
    let workers = 1 + random.below(8);
    let steps = draw(alloc, random, scene)?;
    let feeds = feeds_of(alloc, steps.as_slice())?;
    let drawn = scene.run(alloc, workers, steps)?;
    let alone = scene.run(alloc, 1, feeds)?;
    Ok(drawn.report.as_str() == alone.report.as_str())
}
