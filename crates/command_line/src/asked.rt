use ksql_types::Word;

/// A command and its arguments.
#[derive(Debug, Drop)]
pub enum Command {
    /// Run a script on the topic files of a folder.
    Run {
        script: Word,
        topics: Word,
        workers: u32,
        schedule: Option<Word>,
        trace: bool,
    },
    /// Explain the topology of a script.
    Explain {
        script: Word,
    },
    /// Run a query on generated records.
    Demo {
        records: u32,
        workers: u32,
    },
}
