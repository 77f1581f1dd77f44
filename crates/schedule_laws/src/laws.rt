//! What a drain brings about, and what a report depends on, as laws. None of these functions does anything.
ghost use Rattle.std.specs.Prelude.{◌≡◌, ℕ, Bool, List, None, Ok, Option, Some, length, true, false};
ghost use Rattle.ksql_program.specs.Sound.{IsSound};
ghost use Rattle.ksql_program.specs.declared.program.Item.{Item as OneItem};
ghost use Rattle.ksql_program.specs.declared.program.Program.{Program as OneProgram};
ghost use Rattle.topic_files.specs.declared.topic.TopicLines.{TopicLines as OneFile};
ghost use Rattle.topology.specs.Topologies.{topology_of};
ghost use Rattle.topology.specs.declared.schedule.Lined.{Lined as OneLine};
ghost use Rattle.topology.specs.declared.schedule.Step.{Step as OneStep};
ghost use Rattle.feed_laws.specs.Fitting.{AreFilesOf};
ghost use Rattle.schedule_text.specs.Schedules.{schedule_of};
ghost use Rattle.cluster_laws.specs.Progress.{opening};
ghost use Rattle.command_line.specs.Words.{command_of};
ghost use Rattle.command_line.specs.declared.asked.Command.TheVariants.{Demo, Run as run_words};
ghost use Rattle.ksql_cli.specs.Command.{Files, HasText, IsProgramRead, IsScheduled, Runs};
ghost use Rattle.ksql_cli.specs.Run.{Run as OneRun, progress, summary_of};
ghost use Rattle.schedule_laws.specs.Commands.{HasFeeds};
ghost use Rattle.schedule_laws.specs.Drained.{CanDrain, DrainsHaveWorkers, feeds_of, is_drained, IsDone, then_drain};
ghost use Rattle.schedule_laws.specs.Reports.{AreAlike, EndsDrained, ShowsAllAtOnce, ShowsTheWhole};

/// The number of the last feed is the number of a schedule's feeds, and the order of consumption depends on the feeds
/// alone: not on the workers, and on no other step.
pub fn steps_feed()
    ensures last { (items : List OneItem) (files : List OneFile) (workers : ℕ) (steps : List OneLine) →
        (progress items files workers steps).fed ≡ length (feeds_of steps) }
    ensures order { (items : List OneItem) (files : List OneFile) (workers others : ℕ) (steps moves : List OneLine) → feeds_of steps ≡ feeds_of moves →
        (progress items files workers steps).order ≡ (progress items files others moves).order }
{}

/// A drain with a live worker brings each task to the last feed and closes each topic for it, whatever came before:
/// losses, starts, stops and rounds. So does a schedule that ends drained, if a worker is live at each of its drains.
pub fn drains_finish()
    ensures drain { (items : List OneItem) (files : List OneFile) (workers : ℕ) (steps : List OneLine) (line : ℕ) → IsSound items →
        CanDrain (progress items files workers steps) → IsDone items (length (feeds_of steps)) (progress items files workers (then_drain steps line)) }
    ensures schedule { (items : List OneItem) (files : List OneFile) (workers : ℕ) (steps : List OneLine) → IsSound items →
        DrainsHaveWorkers (topology_of items) (opening (topology_of items) items files workers) steps → is_drained steps ≡ true →
        IsDone items (length (feeds_of steps)) (progress items files workers steps) }
{}

/// At each drain of a schedule that is read without a fault a worker is live, and so in a command without a schedule.
pub fn written_drains_have_workers()
    ensures text { (items : List OneItem) (files : List OneFile) (workers : ℕ) (bytes : List ℕ) (steps : List OneLine) →
        schedule_of items (topology_of items) workers bytes ≡ Ok steps →
        DrainsHaveWorkers (topology_of items) (opening (topology_of items) items files workers) steps }
    ensures command { (words : List (List ℕ)) (all : Files) (script topics : List ℕ) (workers : ℕ) (schedule : Option (List ℕ)) (trace : Bool)
        (program : OneProgram) (files : List OneFile) (steps : List OneLine) →
        command_of words ≡ Some (run_words script topics workers schedule trace) → IsScheduled schedule workers all program steps →
        DrainsHaveWorkers (topology_of program.items) (opening (topology_of program.items) program.items files workers) steps }
{}

/// The bytes of a schedule are the same steps for each number of workers for which they are read without a fault.
pub fn workers_change_no_step()
    ensures { (items : List OneItem) (workers others : ℕ) (bytes : List ℕ) (steps moves : List OneLine) →
        schedule_of items (topology_of items) workers bytes ≡ Ok steps → schedule_of items (topology_of items) others bytes ≡ Ok moves → steps ≡ moves }
{}

/// After a schedule that ends drained, the report shows each relation up to the last feed: its whole meaning on all
/// records that were fed.
pub fn whole_meaning_is_shown()
    ensures { (run : OneRun) → IsSound run.program.items → AreFilesOf run.program.items run.files → EndsDrained run → ShowsTheWhole run }
{}

/// A command whose schedule ends drained writes each relation's whole meaning, up to the last feed.
pub fn drained_commands_write_the_whole()
    ensures { (words : List (List ℕ)) (all : Files) (script topics : List ℕ) (workers : ℕ) (schedule : Option (List ℕ)) (trace : Bool) (run : OneRun) →
        command_of words ≡ Some (run_words script topics workers schedule trace) →
        Runs (record { script = script; topics = topics; workers = workers; schedule = schedule; trace = trace }) all run →
        is_drained run.steps ≡ true → ShowsTheWhole run }
{}

/// Without a schedule a command shows each relation's whole meaning on all records of the topic files, fed at once.
pub fn without_a_schedule_all_is_shown()
    ensures { (words : List (List ℕ)) (all : Files) (script topics : List ℕ) (workers : ℕ) (trace : Bool) (run : OneRun) →
        command_of words ≡ Some (run_words script topics workers None trace) →
        Runs (record { script = script; topics = topics; workers = workers; schedule = None; trace = trace }) all run → ShowsAllAtOnce run }
{}

/// Two runs of one program on the same topic files whose schedules have the same feeds in the same order, and end
/// drained, have the same report, byte for byte, up to the trace, and the same summary. Workers, rounds, losses, starts
/// and stops may differ.
pub fn feeds_alone_matter()
    ensures report { (a b : OneRun) → IsSound a.program.items → a.program ≡ b.program → a.files ≡ b.files → feeds_of a.steps ≡ feeds_of b.steps →
        EndsDrained a → EndsDrained b → AreAlike a b }
    ensures summary { (a b : OneRun) → IsSound a.program.items → a.program ≡ b.program → a.files ≡ b.files → feeds_of a.steps ≡ feeds_of b.steps →
        EndsDrained a → EndsDrained b → summary_of a ≡ summary_of b }
{}

/// Two commands without a trace that run one script on the topic files of one folder write the same text, byte for byte,
/// if their schedules have the same feeds and end drained; or if they have one schedule, which ends drained, and
/// different numbers of workers.
pub fn commands_write_the_same()
    ensures feeds { (words others : List (List ℕ)) (all : Files) (script topics : List ℕ) (workers more : ℕ) (schedule other : Option (List ℕ))
        (program : OneProgram) (feeds : List OneStep) (text same : List ℕ) →
        command_of words ≡ Some (run_words script topics workers schedule false) → command_of others ≡ Some (run_words script topics more other false) →
        IsProgramRead script all program → HasFeeds schedule workers all program feeds → HasFeeds other more all program feeds →
        HasText words all text → HasText others all same → text ≡ same }
    ensures workers { (words others : List (List ℕ)) (all : Files) (script topics : List ℕ) (workers more : ℕ) (schedule : Option (List ℕ))
        (program : OneProgram) (feeds : List OneStep) (text same : List ℕ) →
        command_of words ≡ Some (run_words script topics workers schedule false) → command_of others ≡ Some (run_words script topics more schedule false) →
        IsProgramRead script all program → HasFeeds schedule workers all program feeds →
        HasText words all text → HasText others all same → text ≡ same }
{}

/// The demo of n records writes the same summary for each number of workers, byte for byte.
pub fn demos_write_the_same()
    ensures { (words others : List (List ℕ)) (all : Files) (records workers more : ℕ) (text same : List ℕ) →
        command_of words ≡ Some (Demo records workers) → command_of others ≡ Some (Demo records more) →
        HasText words all text → HasText others all same → text ≡ same }
{}

/// Each demo has its text: its script is accepted, its topic file has no fault, and its schedule is read without a fault.
pub fn demos_are_decided()
    ensures { (words : List (List ℕ)) (all : Files) (records workers : ℕ) → command_of words ≡ Some (Demo records workers) →
        (text : List ℕ) × HasText words all text }
{}
