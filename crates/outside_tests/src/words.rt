use command_line::{Command, WordsFault, read_words};
use ksql_types::{Items, Word, Words};
use std::alloc::{AllocError, Global};
use std::test::Fail;

/// The words of a line, separated by spaces.
fn words_of(alloc: Global, line: &str) -> Result<Words, AllocError> {
    let mut words = Vec::new(alloc);
    for word in line.split(' ') {
        words.push(Word::of(String::from_str(alloc, word)?))?;
    }
    Ok(Items::of(words))
}

/// What the words ask for, as text.
fn told(alloc: Global, words: &Words) -> Result<String, AllocError> {
    match read_words(alloc, words) {
        Ok(
            Command::Run {
                script,
                topics,
                workers,
                schedule,
                trace,
            },
        ) => {
            let schedule = match &schedule {
                Some(name) => name.items(),
                None => "none",
            };
            let (script, topics) = (script.items(), topics.items());
            format!(in alloc; "run {script} {topics} {workers} {schedule} {trace}")
        }
        Ok(Command::Explain { script }) => {
            let script = script.items();
            format!(in alloc; "explain {script}")
        }
        Ok(Command::Demo { records, workers }) => { format!(in alloc; "demo {records} {workers}") }
        Err(WordsFault::Usage) => String::from_str(alloc, "usage"),
        Err(WordsFault::OutOfMemory) => String::from_str(alloc, "out of memory"),
    }
}

/// The first line `WORDS => COMMAND` of a table whose words don't ask for that command.
fn wrong(alloc: Global, table: &str) -> Result<String, AllocError> {
    for line in table.split('\n') {
        let Some((words, wanted)) = line.split_once(" => ") else {
            return String::from_str(alloc, line);
        };
        let found = told(alloc, &words_of(alloc, words)?)?;
        if found.as_str() != wanted {
            return String::from_str(alloc, line);
        }
    }
    Ok(String::new(alloc))
}

#[test]
fn commands_are_read(rt: HostRuntime) -> Result<(), Fail> {
    let table = "ksql run --script f.sql => run f.sql . 1 none false
ksql run --script=f.sql --topics=sub --workers=2 => run f.sql sub 2 none false
ksql run --trace --schedule q --workers 32 --topics sub --script f.sql => run f.sql sub 32 q true
ksql run --script f.sql --workers +5 => run f.sql . 5 none false
ksql run --script f.sql --workers 01 => run f.sql . 1 none false
ksql run --script f.sql -- => run f.sql . 1 none false
ksql run --script= --topics= => run   1 none false
ksql explain --script f.sql => explain f.sql
ksql demo 1 => demo 1 1
ksql demo 100000 --workers 3 => demo 100000 3
ksql demo --workers 3 -- 5 => demo 5 3";
    assert_eq!(rt; wrong(rt.alloc(), table)?.as_str(), "");
    Ok(())
}

const NO_COMMANDS: &str = "ksql => usage
ksql  => usage
ksql walk => usage
ksql help => usage
ksql -h => usage
ksql --script f.sql => usage
ksql RUN --script f.sql => usage
ksql run => usage
ksql run f.sql => usage
ksql run --script => usage
ksql run --script --trace => usage
ksql run --scrip f.sql => usage
ksql run --script f.sql --help => usage
ksql run --script f.sql -h => usage
ksql run --help => usage
ksql run --script f.sql stray => usage
ksql run --script f.sql -- stray => usage
ksql run --script f.sql --unknown => usage
ksql run --script f.sql --script f.sql => usage
ksql run --script f.sql --trace --trace => usage
ksql run --script f.sql --trace=true => usage
ksql run --script f.sql --workers 0 => usage
ksql run --script f.sql --workers 33 => usage
ksql run --script f.sql --workers -1 => usage
ksql run --script f.sql --workers x => usage
ksql run --script f.sql --work=3 => usage
ksql run --script f.sql --workers 1 --workers 1 => usage
ksql explain => usage
ksql explain --script f.sql --trace => usage
ksql explain --script f.sql --workers 1 => usage
ksql demo => usage
ksql demo 0 => usage
ksql demo 100001 => usage
ksql demo -1 => usage
ksql demo 1.0 => usage
ksql demo x => usage
ksql demo 5 6 => usage
ksql demo 5 --trace => usage";

#[test]
fn other_words_are_no_command(rt: HostRuntime) -> Result<(), Fail> {
    assert_eq!(rt; wrong(rt.alloc(), NO_COMMANDS)?.as_str(), "");
    Ok(())
}

#[test]
fn no_words_are_no_command(rt: HostRuntime) -> Result<(), Fail> {
    let words = Items::of(Vec::new(rt.alloc()));
    assert_eq!(rt; told(rt.alloc(), &words)?.as_str(), "usage");
    Ok(())
}

/// What a run of a script asks for whose name has `letters` letters.
fn told_of_long(alloc: Global, letters: usize) -> Result<String, AllocError> {
    let mut line = String::from_str(alloc, "ksql run --script ")?;
    for _ in 0..letters {
        line.push('x')?;
    }
    told(alloc, &words_of(alloc, line.as_str())?)
}

#[test]
fn a_word_has_at_most_4096_bytes(rt: HostRuntime) -> Result<(), Fail> {
    let longest = told_of_long(rt.alloc(), 4096)?;
    assert_eq!(rt; longest.len(), 4096 + "run  . 1 none false".len());
    assert_eq!(rt; told_of_long(rt.alloc(), 4097)?.as_str(), "usage");
    Ok(())
}
