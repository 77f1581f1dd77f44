use ksql_types::Word;

/// What a run asks for: a script, the folder of its topic files, the number of workers that are live at first, an
/// optional schedule, and whether to print the trace.
#[derive(Debug, Drop)]
pub(crate) struct Asked {
    pub script: Word,
    pub topics: Word,
    pub workers: u32,
    pub schedule: Option<Word>,
    pub trace: bool,
}
