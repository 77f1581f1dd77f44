ghost use Rattle.std.specs.Prelude.{◌≡◌, ◌⊎◌, None, ℕ, List, IfOk, IfErr, IfSome};
ghost use Rattle.ksql_outside.specs.Outside.{followed_by, JoinedLast, Rose, WrotePrefix};
ghost use Rattle.command_line.specs.Words.{command_of};
ghost use Rattle.ksql_cli.specs.declared.status.Status.{Status as OneStatus};
ghost use Rattle.ksql_cli.specs.Command.{AreDue, HasAnswer, HasCause, HasText, IsDecided, IsRefusal, NoDueFails, told};
ghost use Rattle.ksql_cli.specs.Fault.{fault_line};
ghost use Rattle.ksql_cli.specs.Ran.{Leaves, LeavesCluster};
ghost use Rattle.ksql_cli.specs.Stages.{IsUsage};
ghost use Rattle.ksql_cli.specs.Steps.{IsJoined};

use crate::asked::Asked;
use crate::fault::write_fault;
use crate::status::Status;
use crate::texts::{Finished, demonstrated, explained, reported};
use cluster_core::Cluster;
use command_line::{Command, read_words};
use ksql_outside::{Failed, Folder, Gate, Sink, write_whole};
use ksql_types::Words;
use std::alloc::Global;

/// Does what the words say. `run` reads the script, its topic files and its schedule from the folder, runs a cluster of
/// the script's program with the given number of workers through the steps of the schedule, and writes the report of
/// what its broker shows; `explain` writes the topology of a script; `demo` runs the demo. Otherwise it writes the line
/// that says why not.
pub fn ksql<R, F: Folder, K: Sink, G: Gate + Sync>(
    _rt: &R,
    alloc: Global,
    words: &Words,
    folder: &mut F,
    out: &mut K,
    _gate: &G,
    ran: &mut Option<Cluster>,
) -> Status
    // The command's text is written, and nothing else: the report of the script's program on its topic files after the
    // steps of its schedule, the script's topology, or the summary of the demo.
    ensures done { result ≡ Status.Done → IfSome (told words.now (F.files folder.old)) (λ all. (text : List ℕ) × HasText words.now all text
        × (K.written out.new ≡ followed_by (K.written out.old) text)) }
    // Each status has its cause in the words, the files and the names that failed.
    ensures cause { IfSome (told words.now (F.files folder.old)) (λ all. HasCause words.now all (F.failed folder.old) (F.failed folder.new) result) }
    ensures usage { result ≡ Status.Usage → command_of words.now ≡ None }
    ensures read_fault { (name : List ℕ) → result ≡ Status.ReadFault name → JoinedLast (F.failed folder.old) (F.failed folder.new) name }
    ensures reads { IfSome (told words.now (F.files folder.old)) (λ all. AreDue words.now all (F.failed folder.old) (F.failed folder.new)) }
    ensures write_fault { result ≡ Status.WriteFault → Rose (K.faults out.old) (K.faults out.new) }
    ensures prefix { result ≡ Status.WriteFault → IfSome (told words.now (F.files folder.old)) (λ all. (text : List ℕ) × HasText words.now all text
        × WrotePrefix (K.written out.old) (K.written out.new) text) }
    // Under any other status only its fault line is written: all of it, or a prefix if a write failed.
    ensures fault { IsRefusal result → WrotePrefix (K.written out.old) (K.written out.new) (fault_line result) }
    ensures whole_fault { IsRefusal result → ¬ Rose (K.faults out.old) (K.faults out.new)
        → K.written out.new ≡ followed_by (K.written out.old) (fault_line result) }
    // The words and the files decide a status, unless a file that is due isn't there.
    ensures decided { IfSome (told words.now (F.files folder.old)) (λ all. HasAnswer words.now all) }
    // A decided status that has its cause is returned, unless memory is short, a due name failed or, if a text is due,
    // a write failed.
    ensures exact { IfSome (told words.now (F.files folder.old)) (λ all. NoDueFails words.now all (F.failed folder.old) (F.failed folder.new)
        → (status : OneStatus) → IsDecided status → HasCause words.now all (F.failed folder.old) (F.failed folder.new) status
        → (status ≡ Status.Done → ¬ Rose (K.faults out.old) (K.faults out.new)) → (result ≡ status) ⊎ (result ≡ Status.OutOfMemory)) }
    // An accepted script, good topic files and a good schedule give their text, or out of memory.
    ensures complete { IfSome (told words.now (F.files folder.old)) (λ all. (text : List ℕ) → HasText words.now all text
        → NoDueFails words.now all (F.failed folder.old) (F.failed folder.new) → ¬ Rose (K.faults out.old) (K.faults out.new)
        → (result ≡ Status.Done) ⊎ (result ≡ Status.OutOfMemory)) }
    ensures same_files { F.files folder.new ≡ F.files folder.old }
    // The cluster that ran is handed back if the text of a run was begun, and none otherwise.
    ensures ran { IfSome (told words.now (F.files folder.old)) (λ all. Leaves words.now all result ran.new) }
    ensures no_cluster { IsRefusal result → ran.new ≡ None }
{
    match whole_text(alloc, words, folder) {
        Ok(finished) => {
            *ran = finished.cluster;
            match write_whole(out, finished.text.as_slice()) {
                Ok(()) => Status::Done,
                Err(Failed) => Status::WriteFault,
            }
        }
        Err(status) => {
            *ran = None;
            let _ = write_fault(out, &status);
            status
        }
    }
}

/// The command's whole text, and the cluster whose broker shows it.
fn whole_text<F: Folder>(alloc: Global, words: &Words, folder: &mut F) -> Result<Finished, Status>
    ensures text { IfOk result (λ finished. IfSome (told words.now (F.files folder.old)) (λ all. HasText words.now all finished.text.items)) }
    ensures ran { IfOk result (λ finished. IfSome (told words.now (F.files folder.old)) (λ all. LeavesCluster (command_of words.now) all finished.cluster)) }
    ensures cause { IfErr result (λ status. IfSome (told words.now (F.files folder.old))
        (λ all. HasCause words.now all (F.failed folder.old) (F.failed folder.new) status)) }
    ensures joined { IfErr result (IsJoined (F.failed folder.old) (F.failed folder.new)) }
    ensures reads { IfSome (told words.now (F.files folder.old)) (λ all. AreDue words.now all (F.failed folder.old) (F.failed folder.new)) }
    ensures refusal { IfErr result IsRefusal }
    ensures usage { IfErr result (IsUsage words.now) }
    ensures same_files { F.files folder.new ≡ F.files folder.old }
{
    match read_words(alloc, words)? {
        Command::Run {
            script,
            topics,
            workers,
            schedule,
            trace,
        } => {
            let asked = Asked {
                script,
                topics,
                workers,
                schedule,
                trace,
            };
            reported(alloc, &asked, folder)
        }
        Command::Explain { script } => explained(alloc, script.items(), folder),
        Command::Demo { records, workers } => Ok(demonstrated(alloc, records, workers)?),
    }
}
