//! Laws of the assignment rule. These functions do nothing.
ghost use Rattle.std.specs.Prelude.{◌≡◌, ◌≢◌, ℕ, ◌≤◌, [], List, IsTrue};
ghost use Rattle.std.specs.List.Sorted.{IsStrictlyIncreasing};
ghost use Rattle.ksql_types.specs.declared.relation.TaskName.{TaskName};
ghost use Rattle.assignor.specs.declared.assignment.Owned.{Owned};
ghost use Rattle.assignor.specs.Rule.{assignment, may_keep, share_of, IsAssignment};
ghost use Rattle.assignor.specs.Laws.{had_of, kept_before, HadAt, IsBalanced, IsWhole, Keeps};

/// There is one assignment of tasks to live workers, given who owned them before: the one that the passes find.
pub fn one_assignment()
    ensures is { (previous : List Owned) (live : List ℕ) (tasks : List TaskName) → IsStrictlyIncreasing live → IsAssignment previous live tasks (assignment previous live tasks) }
    ensures only { (previous : List Owned) (live : List ℕ) (tasks : List TaskName) (made other : List Owned) → IsAssignment previous live tasks made → IsAssignment previous live tasks other → made ≡ other }
{}

/// If a worker is live, each task has exactly one owner, and it is live.
pub fn each_task_owned()
    ensures { (previous : List Owned) (live : List ℕ) (tasks : List TaskName) → live ≢ [] → IsStrictlyIncreasing live → IsWhole live tasks (assignment previous live tasks) }
{}

/// The numbers of tasks of any two live workers differ by at most one.
pub fn balanced()
    ensures { (previous : List Owned) (live : List ℕ) (tasks : List TaskName) → IsStrictlyIncreasing live → IsBalanced live (assignment previous live tasks) }
{}

/// A task doesn't move if its live owner may keep it, given the earlier tasks that the workers kept. So only tasks
/// whose owner is gone or over its share move.
pub fn stays_within_share()
    ensures { (previous : List Owned) (live : List ℕ) (tasks : List TaskName) (i worker : ℕ) → HadAt previous live tasks i worker → IsTrue (may_keep (share_of live tasks) live (kept_before previous live tasks i) worker) → Keeps tasks (assignment previous live tasks) i worker }
{}

/// A live worker that had no more tasks than its share keeps them all.
pub fn keeps_all()
    ensures { (previous : List Owned) (live : List ℕ) (tasks : List TaskName) (i worker : ℕ) → HadAt previous live tasks i worker → had_of previous tasks worker ≤ (share_of live tasks).low → Keeps tasks (assignment previous live tasks) i worker }
{}
