//! The topology of a program: the stages of its queries, with numbers for their topics.
ghost use Rattle.std.specs.Prelude.{◌≡◌, ◌+◌, ◌<◌, ◌≤◌, ◌^◌, ◌++◌, ◌∷◌, [], IfOk, List, OnOk, length, map};
ghost use Rattle.ksql_place.specs.declared.change.SourceRecord.{SourceRecord as OneRecord};
ghost use Rattle.ksql_program.specs.Program.{relation_of, relations};
ghost use Rattle.ksql_program.specs.Sound.{IsSound};
ghost use Rattle.query_meaning.specs.Queries.{key_columns};
ghost use Rattle.topology.specs.Stages.{stages_of};
ghost use Rattle.topology.specs.Topologies.{cut_text, cut_topics, cuts_of, input_of, place_of, relation_topic, repartition_name, stages_at, sub_of, subs, subs_from, topic_of, topics_from, topology_of, writer_of};
ghost use Rattle.short_laws.specs.Fed.{IsFed};
ghost use Rattle.topology_laws.specs.Meant.{MeansItsQueries};

use key_planner::keyed;
use ksql_program::{Item, Program, Query, relation_of};
use ksql_types::{Chars, CopyOf, Items, Relation, TopicSpec, Writer};
use logical_plan::plan;
use std::alloc::{AllocError, Global};
use topology::{CutName, Link, Stage, Stages, Sub, SubInput, SubInputs, Topology};

/// The parts of a topology: sub-topologies, and the repartition topics that they write.
#[derive(Drop)]
struct Parts {
    subs: Vec<Sub>,
    cuts: Vec<TopicSpec>,
}

/// The numbers for the stages of a query: `query` is the number of its item, `out` its result, `first` the number of
/// its first repartition topic, and `cuts` are the purposes of its repartition topics, in order.
#[derive(Clone, Copy, Drop)]
struct Numbering<'a> {
    program: &'a Program,
    query: u32,
    out: &'a Relation,
    first: u32,
    cuts: &'a [CutName],
}

/// The topology of a program. Its sub-topologies are numbered through the script, inputs first. Its topics are those of
/// the relations, then the repartition topics in the order of the sub-topologies that write them. Each partition of a
/// query's topic has exactly the changes that the query means there, for all records that are in their partitions.
pub fn build(alloc: Global, program: &Program) -> Result<Topology, AllocError>
    requires { IsSound program.now.items }
    ensures exact { IfOk result (λ t. t ≡ topology_of program.now.items) }
    ensures means { IfOk result (λ t. (order : List OneRecord) → IsFed program.now.items order → MeansItsQueries program.now.items t order) }
{
    topology_of(alloc, program)
}

/// The sub-topologies of a program with its topics.
fn topology_of(alloc: Global, program: &Program) -> Result<Topology, AllocError>
    requires { IsSound program.now.items }
    ensures { IfOk result (λ t. t ≡ topology_of program.now.items) }
{
    let Parts { subs, mut cuts } = parts_of(alloc, program)?;
    let mut topics = relation_topics(alloc, program, subs.as_slice())?;
    topics.append(&mut cuts)?;
    Ok(Topology {
        topics: Items::of(topics),
        subs: Items::of(subs),
    })
}

/// The sub-topologies of a program and its repartition topics.
fn parts_of(alloc: Global, program: &Program) -> Result<Parts, AllocError>
    requires { IsSound program.now.items }
    ensures subs { IfOk result (λ parts. parts.subs.items ≡ subs program.now.items) }
    ensures cuts { IfOk result (λ parts. parts.cuts.items ≡ cut_topics program.now.items (length program.now.items) 0 program.now.items) }
{
    let mut parts = Parts {
        subs: Vec::new(alloc),
        cuts: Vec::new(alloc),
    };
    let items = program.items.items();
    for (number, item) in items.iter().enumerate() {
        parts.push_item(alloc, program, number as u32, item)?;
    }
    Ok(parts)
}

impl Parts {
    /// Appends the sub-topologies and repartition topics of an item, if it is a query.
    fn push_item(
        &mut self,
        alloc: Global,
        program: &Program,
        number: u32,
        item: &Item,
    ) -> Result<(), AllocError>
        requires sound { IsSound program.now.items }
        requires named { length (relation_of item.now).name ≤ 128 }
        requires few_subs { length self.old.subs.items ≤ 600 }
        requires few_cuts { length self.old.cuts.items ≤ 400 }
        ensures subs { let stages = stages_at program.now.items item.now in let first = length program.now.items + length self.old.cuts.items in
            OnOk result (self.new.subs.items ≡ self.old.subs.items ++ subs_from program.now.items number first (cuts_of stages) (length self.old.subs.items) stages) }
        ensures cuts { let stages = stages_at program.now.items item.now in let first = length program.now.items + length self.old.cuts.items in
            OnOk result (self.new.cuts.items ≡ self.old.cuts.items ++ topics_from first (length self.old.subs.items) (relation_of item.now).name stages) }
    {
        match item {
            Item::Declared(_) => Ok(()),
            Item::Started(query) => self.push_query(alloc, program, number, query),
        }
    }

    /// Appends the sub-topologies and the repartition topics of the query of an item.
    fn push_query(
        &mut self,
        alloc: Global,
        program: &Program,
        number: u32,
        query: &Query,
    ) -> Result<(), AllocError>
        requires sound { IsSound program.now.items }
        requires named { length query.now.out.name ≤ 128 }
        requires few_subs { length self.old.subs.items ≤ 600 }
        requires few_cuts { length self.old.cuts.items ≤ 400 }
        ensures subs { let stages = stages_of program.now.items query.now in let first = length program.now.items + length self.old.cuts.items in
            OnOk result (self.new.subs.items ≡ self.old.subs.items ++ subs_from program.now.items number first (cuts_of stages) (length self.old.subs.items) stages) }
        ensures cuts { let stages = stages_of program.now.items query.now in let first = length program.now.items + length self.old.cuts.items in
            OnOk result (self.new.cuts.items ≡ self.old.cuts.items ++ topics_from first (length self.old.subs.items) query.now.out.name stages) }
    {
        let stages = stages_of(alloc, query, program)?;
        let cuts = cuts_of(alloc, stages.items())?;
        let first = program.items.items().len() + self.cuts.len();
        let numbering = Numbering {
            program,
            query: number,
            out: &query.out,
            first: first as u32,
            cuts: cuts.as_slice(),
        };
        self.push_stages(alloc, &numbering, stages)
    }

    /// Appends the sub-topologies and the repartition topics of stages.
    fn push_stages(
        &mut self,
        alloc: Global,
        numbering: &Numbering,
        stages: Stages,
    ) -> Result<(), AllocError>
        requires sound { IsSound numbering.now.program.now.items }
        requires named { length numbering.now.out.now.name ≤ 128 }
        requires few_topics { numbering.now.first + length numbering.now.cuts.now < 2 ^ 32 }
        requires few_subs { length self.old.subs.items + length stages < 2 ^ 32 }
        requires few_cuts { length numbering.now.program.now.items + length self.old.cuts.items + length stages < 2 ^ 32 }
        ensures subs { let n = numbering.now in
            OnOk result (self.new.subs.items ≡ self.old.subs.items ++ subs_from n.program.now.items n.query n.first n.cuts.now (length self.old.subs.items) stages) }
        ensures cuts { let n = numbering.now in
            OnOk result (self.new.cuts.items ≡ self.old.cuts.items ++ topics_from (length n.program.now.items + length self.old.cuts.items) (length self.old.subs.items) n.out.now.name stages) }
    {
        for stage in stages.into_items() {
            self.push_stage(alloc, numbering, stage)?;
        }
        Ok(())
    }

    /// Appends the sub-topology of a stage, and the repartition topic that it writes, if any.
    fn push_stage(
        &mut self,
        alloc: Global,
        numbering: &Numbering,
        stage: Stage,
    ) -> Result<(), AllocError>
        requires sound { IsSound numbering.now.program.now.items }
        requires named { length numbering.now.out.now.name ≤ 128 }
        requires few_topics { numbering.now.first + length numbering.now.cuts.now < 2 ^ 32 }
        requires few_subs { length self.old.subs.items < 2 ^ 32 }
        requires few_cuts { length numbering.now.program.now.items + length self.old.cuts.items < 2 ^ 32 }
        ensures subs { let n = numbering.now in
            OnOk result (self.new.subs.items ≡ self.old.subs.items ++ sub_of n.program.now.items n.query n.first n.cuts.now (length self.old.subs.items) stage ∷ []) }
        ensures cuts { let n = numbering.now in
            OnOk result (self.new.cuts.items ≡ self.old.cuts.items ++ topics_from (length n.program.now.items + length self.old.cuts.items) (length self.old.subs.items) n.out.now.name (stage ∷ [])) }
    {
        let number = self.subs.len() as u32;
        if let Link::Cut { name, .. } = stage.output {
            let topic = numbering.program.items.items().len() + self.cuts.len();
            let partitions = stage.partitions;
            self.cuts.push(TopicSpec {
                number: topic as u32,
                name: repartition_name(alloc, &numbering.out.name, name)?,
                partitions,
                writer: Some(Writer {
                    sub: number,
                    partitions,
                }),
            })?;
        }
        self.subs.push(numbering.sub_of(alloc, number, stage)?)?;
        Ok(())
    }
}

impl Numbering<'_> {
    /// A stage as the sub-topology with this number.
    fn sub_of(&self, alloc: Global, number: u32, stage: Stage) -> Result<Sub, AllocError>
        requires sound { IsSound self.now.program.now.items }
        requires few_topics { self.now.first + length self.now.cuts.now < 2 ^ 32 }
        ensures { let n = self.now in IfOk result (λ sub. sub ≡ sub_of n.program.now.items n.query n.first n.cuts.now number stage) }
    {
        Ok(Sub {
            number,
            query: self.query,
            partitions: stage.partitions,
            inputs: self.inputs_of(alloc, stage.inputs.items())?,
            nodes: stage.nodes,
            output: self.topic_of(stage.output),
        })
    }

    /// The inputs of the sub-topology of a stage that reads these topics.
    fn inputs_of(&self, alloc: Global, links: &[Link]) -> Result<SubInputs, AllocError>
        requires sound { IsSound self.now.program.now.items }
        requires few_topics { self.now.first + length self.now.cuts.now < 2 ^ 32 }
        ensures { let n = self.now in IfOk result (λ inputs. inputs ≡ map (input_of n.program.now.items n.first n.cuts.now) links.now) }
    {
        let mut inputs = Vec::new(alloc);
        for link in links {
            inputs.push(self.input_of(*link))?;
        }
        Ok(Items::of(inputs))
    }

    /// A topic that a stage reads, as the input of its sub-topology.
    fn input_of(&self, link: Link) -> SubInput
        requires sound { IsSound self.now.program.now.items }
        requires few_topics { self.now.first + length self.now.cuts.now < 2 ^ 32 }
        ensures { let n = self.now in result ≡ input_of n.program.now.items n.first n.cuts.now link }
    {
        match link {
            Link::Relation(number) => SubInput {
                topic: number,
                relation: number,
                keys: keys_of(self.program, number),
            },
            Link::Cut { relation, .. } => SubInput {
                topic: self.topic_of(link),
                relation,
                keys: 0,
            },
        }
    }

    /// The number of a topic that a stage reads or writes.
    fn topic_of(&self, link: Link) -> u32
        requires { self.now.first + length self.now.cuts.now < 2 ^ 32 }
        ensures { let n = self.now in result ≡ topic_of n.first n.cuts.now link }
    {
        match link {
            Link::Relation(number) => number,
            Link::Cut { name, .. } => self.first + place_of(name, self.cuts) as u32,
        }
    }
}

/// The stages of a query.
fn stages_of(alloc: Global, query: &Query, program: &Program) -> Result<Stages, AllocError>
    ensures { IfOk result (λ stages. stages ≡ stages_of program.now.items query.now) }
{
    let plan = plan(alloc, query, program)?;
    let keyed = keyed(alloc, plan, program)?;
    Ok(keyed.stages)
}

/// The purposes of the repartition topics that these stages write.
fn cuts_of(alloc: Global, stages: &[Stage]) -> Result<Vec<CutName>, AllocError>
    ensures { IfOk result (λ cuts. cuts.items ≡ cuts_of stages.now) }
{
    let mut cuts = Vec::new(alloc);
    for stage in stages {
        if let Link::Cut { name, .. } = stage.output {
            cuts.push(name)?;
        }
    }
    Ok(cuts)
}

/// The index of a repartition topic among these, or their number if it isn't there.
fn place_of(name: CutName, cuts: &[CutName]) -> usize
    ensures value { result ≡ place_of name cuts.now }
    ensures within { result ≤ length cuts.now }
{
    for (index, cut) in cuts.iter().enumerate() {
        if *cut == name {
            return index;
        }
    }
    cuts.len()
}

/// The number of key columns of a relation of a sound program, which is small.
fn keys_of(program: &Program, number: u32) -> u32
    requires { IsSound program.now.items }
    ensures { result ≡ key_columns program.now.items number }
{
    key_columns(program, number) as u32
}

/// The number of key columns of a relation.
fn key_columns(program: &Program, number: u32) -> usize
    ensures { result ≡ key_columns program.now.items number }
{
    match program.items.items().get(number as usize) {
        Some(item) => relation_of(item).schema.keys.items().len(),
        None => 0,
    }
}

/// The name of a repartition topic of the query whose result has this name.
fn repartition_name(alloc: Global, query: &Chars, cut: CutName) -> Result<Chars, AllocError>
    requires { length query.now ≤ 128 }
    ensures { IfOk result (λ name. name ≡ repartition_name query.now cut) }
{
    let (query, cut) = (query.items(), cut_text(cut));
    Ok(Chars::of(format!(in alloc; "ksql-{query}-{cut}-repartition")?)?)
}

/// The purpose of a repartition topic, as its name spells it.
fn cut_text(cut: CutName) -> &'static str
    ensures { result.now ≡ cut_text cut }
{
    match cut {
        CutName::Left => "left",
        CutName::Right => "right",
        CutName::Group => "group",
    }
}

/// The topics of a program's relations, some of which these sub-topologies write.
fn relation_topics(
    alloc: Global,
    program: &Program,
    subs: &[Sub],
) -> Result<Vec<TopicSpec>, AllocError>
    ensures { IfOk result (λ topics. topics.items ≡ map (relation_topic subs.now) (relations program.now.items)) }
{
    let items = program.items.items();
    let mut topics = Vec::new(alloc);
    for item in items {
        topics.push(relation_topic(alloc, relation_of(item), subs)?)?;
    }
    Ok(topics)
}

/// The topic of a relation.
fn relation_topic(alloc: Global, relation: &Relation, subs: &[Sub]) -> Result<TopicSpec, AllocError>
    ensures { IfOk result (λ topic. topic ≡ relation_topic subs.now relation.now) }
{
    Ok(TopicSpec {
        number: relation.number,
        name: relation.topic.copy(alloc)?,
        partitions: relation.partitions,
        writer: writer_of(relation.number, subs),
    })
}

/// The tasks that write a topic, if any.
fn writer_of(topic: u32, subs: &[Sub]) -> Option<Writer>
    ensures { result ≡ writer_of topic subs.now }
{
    for sub in subs {
        if sub.output == topic {
            return Some(Writer {
                sub: sub.number,
                partitions: sub.partitions,
            });
        }
    }
    None
}
