//! Commits whose memory is allocated.
ghost use Rattle.std.specs.Prelude.{◌≡◌, ◌+◌, ◌≤◌, ◌==◌, ◌⊎◌, [], IfErr, IfOk, IfSome, OnOk, filter, length, map, position, slice_get, slice_index, sum, vec_capacity};
ghost use Rattle.std.specs.List.{AllZip};
ghost use Rattle.std.specs.VecDeque.{deque_capacity};
ghost use Rattle.ksql_place.specs.Routing.{is_to};
ghost use Rattle.core_state.specs.Routes.{IsWriter};
ghost use Rattle.core_state.specs.declared.log.Proposal.{Proposal as OneProposal};
ghost use Rattle.topic_log.specs.declared.prepared.Prepared.{Prepared as OnePrepared};
ghost use Rattle.topic_log.specs.Ready.{HasRoom, IsProposal, IsReady};
ghost use Rattle.topic_log.specs.Shelves.{AreShelves, routes_in};
ghost use Rattle.topic_log.specs.Taking.{AreRooms, count_to, HasRoomFor, IsEmptyRoom, KeepsLogRoom, KeepsRoom, KeepsRooms, room_beside};
ghost use Rattle.topic_log.specs.Views.{part_view, task_view, topic_view, topic_views, EachAt};

use crate::shelves::{PartShelf, Shelves, TaskShelf, TopicShelf};
use core_state::Proposal;
use ksql_place::Change;
use ksql_types::{StoreEntry, TaskName, lane};
use std::alloc::{AllocError, Global};
use std::collections::VecDeque;

/// A commit whose memory is allocated: a proposal, and its outputs sorted by partition.
#[derive(Drop)]
pub struct Prepared {
    pub task: TaskName,
    pub generation: u64,
    pub from: u64,
    pub to: u64,
    pub(crate) sent: Vec<Vec<Change>>,
    pub(crate) entries: Vec<StoreEntry>,
}

/// An empty list for each partition. If all outputs go to one partition, `whole` is that partition, which takes over
/// their list as it is.
#[derive(Drop)]
struct Rooms {
    whole: Option<usize>,
    lists: Vec<Vec<Change>>,
}

/// Allocates all memory for the commit of a proposal to topic `number`, which its task writes. The content of the
/// topics is unchanged. On failure it hands the proposal back.
pub(crate) fn prepare(
    shelves: &mut Shelves,
    alloc: Global,
    number: usize,
    proposal: Proposal,
) -> Result<Prepared, Proposal>
    requires shelves { AreShelves shelves.old }
    requires writer { IsWriter (routes_in shelves.old) proposal.task }
    requires number { number ≡ (routes_in shelves.old).output proposal.task }
    requires proposal { IsProposal proposal }
    ensures shelves { AreShelves shelves.new }
    ensures views { topic_views shelves.new ≡ topic_views shelves.old }
    ensures fed { shelves.new.fed ≡ shelves.old.fed }
    ensures ready { IfOk result (λ made. IsReady shelves.new made proposal) }
    ensures kept_ready { (made : OnePrepared) (p : OneProposal) → IsReady shelves.old made p → IsReady shelves.new made p }
    ensures back { IfErr result (λ back. back ≡ proposal) }
{
    let topic = &mut shelves.topics[number];
    let parts = topic.spec.partitions;
    match take_room(alloc, topic, &proposal) {
        Ok(rooms) => Ok(sorted(rooms, proposal, parts)),
        Err(_) => Err(proposal),
    }
}

/// Reserves room for a proposal's commit in its topic, and returns the lists for its outputs.
fn take_room(
    alloc: Global,
    topic: &mut TopicShelf,
    proposal: &Proposal,
) -> Result<Rooms, AllocError>
    requires some { 1 ≤ topic.old.spec.partitions }
    requires few { topic.old.spec.partitions ≤ 64 }
    requires parts { length topic.old.parts.items ≡ topic.old.spec.partitions }
    ensures view { topic_view topic.new ≡ topic_view topic.old }
    ensures rooms { IfOk result (AreRooms topic.old.spec.partitions proposal.now.outputs) }
    ensures room { OnOk result (HasRoomFor proposal.now topic.new) }
    ensures kept { KeepsRooms topic.old topic.new }
{
    let writer = proposal.task.part as usize;
    let outputs = proposal.outputs.items();
    let counts = counts_of(alloc, outputs, topic.spec.partitions)?;
    let rooms = rooms_of(alloc, counts.as_slice(), outputs.len())?;
    reserve_parts(&mut topic.parts, writer, counts.as_slice())?;
    reserve_logs(&mut topic.tasks, writer, proposal.entries.items().len())?;
    Ok(rooms)
}

/// The number of outputs for each of `parts` partitions.
fn counts_of(alloc: Global, outputs: &[Change], parts: u32) -> Result<Vec<usize>, AllocError>
    requires some { 1 ≤ parts }
    requires few { parts ≤ 64 }
    ensures len { IfOk result (λ counts. length counts.items ≡ parts) }
    ensures counts { IfOk result (λ counts. EachAt (λ q count. count ≡ count_to parts outputs.now q) counts.items) }
{
    let mut counts = vec![in alloc; 0usize; parts as usize]?;
    for output in outputs {
        let part = lane(&output.key, parts, output.place.stamp.part);
        counts[part as usize] += 1;
    }
    Ok(counts)
}

/// The lists for `all` outputs, of which `counts` go to each partition.
fn rooms_of(alloc: Global, counts: &[usize], all: usize) -> Result<Rooms, AllocError>
    ensures len { IfOk result (λ rooms. length rooms.lists.items ≡ length counts.now) }
    ensures whole { IfOk result (λ rooms. rooms.whole ≡ position (λ count. count == all) counts.now) }
    ensures lists { IfOk result (λ rooms.
        EachAt (λ q list. IsEmptyRoom (room_beside rooms.whole (slice_index counts.now q)) list) rooms.lists.items) }
{
    let whole = counts.iter().position(|count| *count == all);
    let lists = lists_of(alloc, counts, whole)?;
    Ok(Rooms { whole, lists })
}

/// An empty list with room for each of these numbers of changes, except that no list needs room if one partition gets
/// all.
fn lists_of(
    alloc: Global,
    counts: &[usize],
    whole: Option<usize>,
) -> Result<Vec<Vec<Change>>, AllocError>
    ensures len { IfOk result (λ lists. length lists.items ≡ length counts.now) }
    ensures lists { IfOk result (λ lists.
        EachAt (λ q list. IsEmptyRoom (room_beside whole (slice_index counts.now q)) list) lists.items) }
{
    let mut lists = Vec::new(alloc);
    for count in counts {
        lists.push(Vec::with_capacity(alloc, room_beside(whole, *count))?)?;
    }
    Ok(lists)
}

/// The room that a list of `count` changes needs: none if one partition gets all.
fn room_beside(whole: Option<usize>, count: usize) -> usize
    ensures { result ≡ room_beside whole count }
{
    match whole {
        Some(_) => 0,
        None => count,
    }
}

/// Reserves room in each partition for its waiting changes and `more` changes of a task.
fn reserve_parts(
    parts: &mut Vec<PartShelf>,
    writer: usize,
    counts: &[usize],
) -> Result<(), AllocError>
    requires { length parts.old.items ≡ length counts.now }
    ensures views { map part_view parts.new.items ≡ map part_view parts.old.items }
    ensures rooms { OnOk result (EachAt (λ q part. HasRoom writer (slice_index counts.now q) part) parts.new.items) }
    ensures kept { AllZip KeepsRoom parts.old.items parts.new.items }
{
    for index in 0..counts.len() {
        reserve_part(&mut parts[index], writer, counts[index])?;
    }
    Ok(())
}

/// Reserves room in a partition for its waiting changes and `more` changes of a task.
fn reserve_part(part: &mut PartShelf, writer: usize, more: usize) -> Result<(), AllocError>
    ensures view { part_view part.new ≡ part_view part.old }
    ensures room { OnOk result (HasRoom writer more part.new) }
    ensures kept { KeepsRoom part.old part.new }
{
    reserve_waiting(&mut part.waiting, writer, more)?;
    let coming = room_for(part.waiting.as_slice(), more)?;
    reserve_shown(&mut part.said, coming)
}

/// Reserves room for `more` changes. An empty list gets new memory, since a list that grows copies all its capacity.
fn reserve_shown(said: &mut Vec<Change>, more: usize) -> Result<(), AllocError>
    ensures items { said.new.items ≡ said.old.items }
    ensures room { OnOk result (length said.new.items + more ≤ vec_capacity said.new) }
    ensures kept { vec_capacity said.old ≤ vec_capacity said.new }
{
    if said.is_empty() && said.capacity() < more {
        *said = Vec::with_capacity(*said.allocator(), more)?;
    }
    said.reserve(more)
}

/// Reserves room for `more` changes of a task after those of it that wait, if any.
fn reserve_waiting(
    waiting: &mut Vec<VecDeque<Change>>,
    writer: usize,
    more: usize,
) -> Result<(), AllocError>
    ensures items { map (λ w. w.items) waiting.new.items ≡ map (λ w. w.items) waiting.old.items }
    ensures room { OnOk result (IfSome (slice_get waiting.new.items writer) (λ w.
        (w.items ≡ []) ⊎ (length w.items + more ≤ deque_capacity w))) }
    ensures kept { AllZip (λ w v. deque_capacity w ≤ deque_capacity v) waiting.old.items waiting.new.items }
{
    if writer < waiting.len() {
        let own = &mut waiting[writer];
        if !own.is_empty() {
            own.reserve(more)?;
        }
    }
    Ok(())
}

/// The number of waiting changes plus `more`.
fn room_for(waiting: &[VecDeque<Change>], more: usize) -> Result<usize, AllocError>
    ensures { IfOk result (λ room. room ≡ sum (map (λ w. length w.items) waiting.now) + more) }
{
    let mut room = more;
    for changes in waiting {
        room = room.checked_add(changes.len()).ok_or(AllocError)?;
    }
    Ok(room)
}

/// Reserves room for `more` entries in a task's changelog.
fn reserve_logs(tasks: &mut Vec<TaskShelf>, writer: usize, more: usize) -> Result<(), AllocError>
    ensures views { map task_view tasks.new.items ≡ map task_view tasks.old.items }
    ensures room { OnOk result (IfSome (slice_get tasks.new.items writer) (λ k.
        length k.logs.items + more ≤ vec_capacity k.logs)) }
    ensures kept { AllZip KeepsLogRoom tasks.old.items tasks.new.items }
{
    if writer < tasks.len() {
        let own = &mut tasks[writer];
        own.logs.reserve(more)?;
    }
    Ok(())
}

/// The proposal with its outputs sorted into the lists of `parts` partitions. Takes no memory.
fn sorted(rooms: Rooms, proposal: Proposal, parts: u32) -> Prepared
    requires some { 1 ≤ parts }
    requires few { parts ≤ 64 }
    requires rooms { AreRooms parts proposal.outputs rooms }
    ensures task { result.task ≡ proposal.task }
    ensures generation { result.generation ≡ proposal.generation }
    ensures from { result.from ≡ proposal.from }
    ensures to { result.to ≡ proposal.to }
    ensures entries { result.entries.items ≡ proposal.entries }
    ensures len { length result.sent.items ≡ parts }
    ensures sent { EachAt (λ q xs. xs.items ≡ filter (is_to parts q) proposal.outputs) result.sent.items }
{
    let Proposal {
        task,
        generation,
        from,
        to,
        outputs,
        entries,
    } = proposal;
    Prepared {
        task,
        generation,
        from,
        to,
        sent: sent_in(rooms, outputs.into_items(), parts),
        entries: entries.into_items(),
    }
}

/// The outputs sorted into the lists of `parts` partitions. Takes no memory.
fn sent_in(rooms: Rooms, outputs: Vec<Change>, parts: u32) -> Vec<Vec<Change>>
    requires some { 1 ≤ parts }
    requires few { parts ≤ 64 }
    requires rooms { AreRooms parts outputs.items rooms }
    ensures len { length result.items ≡ parts }
    ensures sent { EachAt (λ q xs. xs.items ≡ filter (is_to parts q) outputs.items) result.items }
{
    let Rooms { whole, mut lists } = rooms;
    match whole {
        Some(part) => lists[part] = outputs,
        None => sort_outputs(&mut lists, outputs, parts),
    }
    lists
}

/// Puts each output into the list of its partition, one of `parts`. Takes no memory.
fn sort_outputs(rooms: &mut Vec<Vec<Change>>, outputs: Vec<Change>, parts: u32)
    requires some { 1 ≤ parts }
    requires few { parts ≤ 64 }
    requires len { length rooms.old.items ≡ parts }
    requires rooms { EachAt (λ q room. IsEmptyRoom (count_to parts outputs.items q) room) rooms.old.items }
    ensures len { length rooms.new.items ≡ parts }
    ensures sent { EachAt (λ q xs. xs.items ≡ filter (is_to parts q) outputs.items) rooms.new.items }
{
    for output in outputs {
        let part = lane(&output.key, parts, output.place.stamp.part);
        let room = &mut rooms[part as usize];
        room.push_reserved(output);
    }
}
