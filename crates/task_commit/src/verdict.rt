ghost use Rattle.std.specs.Prelude.{◌≡◌, ◌+◌, ◌<◌, ◌≤◌, ◌^◌};
ghost use Rattle.core_state.specs.declared.log.Proposal.{Proposal as OneProposal};
ghost use Rattle.core_state.specs.Routes.{IsWriter};
ghost use Rattle.core_state.specs.Shelf.{ShelfApplies, ShelfRaises};
ghost use Rattle.topic_log.specs.declared.prepared.Prepared.{Prepared as OnePrepared};
ghost use Rattle.topic_log.specs.Ready.{IsReady};
ghost use Rattle.topic_log.specs.Shelves.{routes_in, shelf_of, topics_of};
ghost use Rattle.task_commit.specs.declared.verdict.Verdict.TheVariants.{Committed, Fenced};

use ksql_types::TaskName;
use topic_log::{Broker, Prepared};

/// The result of a commit: done, or fenced because the proposal's generation is below the newest one.
#[derive(Clone, Copy, Debug, PartialEq, Eq)]
pub enum Verdict {
    Committed,
    Fenced { held: u64, newest: u64 },
}

/// Commits a proposal at once, unless its generation is below the newest one of its task: then it is fenced, and the
/// broker is unchanged. The generation isn't above the newest one, and a proposal of the newest generation begins where
/// the task's last commit ended. Takes no memory.
pub fn commit(broker: &mut Broker, prepared: Prepared) -> Verdict
    requires ready { (p : OneProposal) × IsReady broker.old prepared p }
    requires known { prepared.generation ≤ (shelf_of broker.old).newest prepared.task }
    requires begins { prepared.generation ≡ (shelf_of broker.old).newest prepared.task → (shelf_of broker.old).done prepared.task ≡ prepared.from }
    ensures topics { topics_of broker.new ≡ topics_of broker.old }
    ensures fenced { prepared.generation < (shelf_of broker.old).newest prepared.task →
        (result ≡ Fenced prepared.generation ((shelf_of broker.old).newest prepared.task)) × (broker.new ≡ broker.old) }
    ensures committed { prepared.generation ≡ (shelf_of broker.old).newest prepared.task →
        (result ≡ Committed) × ((p : OneProposal) → IsReady broker.old prepared p →
        ShelfApplies (routes_in broker.old) p.task p (shelf_of broker.old) (shelf_of broker.new)) }
{
    let held = prepared.generation;
    let newest = broker.newest(prepared.task);
    if held < newest {
        return Verdict::Fenced { held, newest };
    }
    broker.apply(prepared);
    Verdict::Committed
}

/// Raises a task's newest generation, so that the proposals of all earlier ones are fenced, and answers it. Takes no memory;
/// what is ready to be committed stays so.
pub fn fence(broker: &mut Broker, task: TaskName) -> u64
    requires writer { IsWriter (routes_in broker.old) task }
    requires room { (shelf_of broker.old).newest task + 1 < 2 ^ 64 }
    ensures topics { topics_of broker.new ≡ topics_of broker.old }
    ensures raises { ShelfRaises (routes_in broker.old) task (shelf_of broker.old) (shelf_of broker.new) }
    ensures number { result ≡ (shelf_of broker.new).newest task }
    ensures ready { (made : OnePrepared) (p : OneProposal) → IsReady broker.old made p → IsReady broker.new made p }
{
    broker.raise(task)
}
