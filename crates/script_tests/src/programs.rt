use ksql_analyse::analyse;
use ksql_lexer::tokens;
use ksql_parser::parse;
use ksql_program::{Program, relation_of};
use ksql_types::CopyOf;
use std::alloc::{AllocError, Global};
use std::fmt::Debug;

/// The program of a script, if it is accepted.
#[tactic(auto, unfolding(ksql_types::specs::Text::longest_text))]
pub fn program(alloc: Global, text: &str) -> Option<Program> {
    if text.len() > 1_048_576 {
        return None;
    }
    let Ok(tokens) = tokens(alloc, text) else {
        return None;
    };
    let Ok(trees) = parse(alloc, tokens.as_slice()) else {
        return None;
    };
    analyse(alloc, trees.as_slice()).ok()
}

/// A value's copy, and whether it is written as the value is.
pub fn copied<T: CopyOf + Debug>(alloc: Global, value: &T) -> Result<(T, bool), AllocError> {
    let copied = value.copy(alloc)?;
    let written = format!(in alloc; "{value:?}")?;
    let same = format!(in alloc; "{copied:?}")?.as_str() == written.as_str();
    Ok((copied, same))
}

/// The names of the relations of a script's program, as its copy has them.
pub fn names(alloc: Global, text: &str) -> Result<String, AllocError> {
    let Some(program) = program(alloc, text) else {
        return String::from_str(alloc, "refused");
    };
    let (copied, same) = copied(alloc, &program)?;
    let mut names = format!(in alloc; "copied {same}")?;
    for item in copied.items.items() {
        names.push(' ')?;
        names.push_str(relation_of(item).name.items())?;
    }
    Ok(names)
}
