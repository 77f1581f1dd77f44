//! The subject of the schedules: a script with its topic files.
ghost use Rattle.std.specs.Prelude.{All};
ghost use Rattle.cluster_core.specs.Cluster.{IsBuilt};

use anyhow::Result;
use cluster_core::Step;
use cluster_tests::{Fault, Ran, run};
use ksql_types::TaskName;
use std::alloc::{AllocError, Global};
use std::fs;
use std::rt::Files;
use topology::Topology;

/// A script and its topic files, the topics that can be fed, and the tasks.
#[derive(Drop)]
pub struct Scene {
    script: String,
    orders: String,
    shops: String,
    pub topics: Vec<u32>,
    pub tasks: Vec<TaskName>,
}

impl Scene {
    /// Reads the script and its topic files.
    pub fn read<R: AllocGlobal + Files>(rt: &R) -> Result<Scene> {
        let alloc = rt.alloc();
        let mut scene = Scene {
            script: fs::read_to_string(rt, "script.sql")?,
            orders: fs::read_to_string(rt, "orders.jsonl")?,
            shops: fs::read_to_string(rt, "shops.jsonl")?,
            topics: Vec::new(alloc),
            tasks: Vec::new(alloc),
        };
        let ran = scene.run(alloc, 1, Vec::new(alloc))?;
        scene.topics = fed_topics(alloc, ran.cluster.topology())?;
        for standing in &ran.tasks {
            scene.tasks.push(standing.task)?;
        }
        Ok(scene)
    }

    /// Runs the script on a cluster with `workers` live workers at first, taking these steps.
    pub fn run(&self, alloc: Global, workers: u32, steps: Vec<Step>) -> Result<Ran, Fault>
        requires { All IsBuilt steps.items }
    {
        let texts = [self.orders.as_str(), self.shops.as_str()];
        run(alloc, self.script.as_str(), &texts, workers, steps)
    }
}

/// The topics that no task writes.
fn fed_topics(alloc: Global, topology: &Topology) -> Result<Vec<u32>, AllocError> {
    let mut topics = Vec::new(alloc);
    for topic in topology.topics.items() {
        if topic.writer.is_none() {
            topics.push(topic.number)?;
        }
    }
    Ok(topics)
}
