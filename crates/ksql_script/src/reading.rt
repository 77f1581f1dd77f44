ghost use Rattle.std.specs.Prelude.{◌≡◌, ◌≤◌, length, IfOk};
ghost use Rattle.ksql_types.specs.Text.{longest_text};
ghost use Rattle.ksql_program.specs.Sound.{IsSound};
ghost use Rattle.ksql_script.specs.Reading.{IsRead};
ghost use Rattle.ksql_script.specs.Script.{IsAnswer};

use crate::fault::ScriptFault;
use ksql_analyse::{AnalyseFault, analyse};
use ksql_lexer::{LexFault, tokens};
use ksql_parser::{ParseFault, parse};
use ksql_program::Program;
use ksql_types::Code;
use statement_trees::Statement;
use std::alloc::Global;
use std::str;

/// The most bytes of a script.
const LONGEST_SCRIPT: usize = 1_048_576;

/// The program of a script, or its first refusal. `OutOfMemory` says nothing about the script.
pub fn program_of_script(alloc: Global, script: &[u8]) -> Result<Program, ScriptFault>
    ensures answer { IsAnswer script.now result }
    ensures sound { IfOk result (λ program. IsSound program.items) }
{
    let trees = trees_of_script(alloc, script)?;
    match analyse(alloc, trees.as_slice()) {
        Ok(program) => Ok(program),
        Err(AnalyseFault::Refused { statement, code }) => Err(refused(statement, code)),
        Err(AnalyseFault::OutOfMemory) => Err(ScriptFault::OutOfMemory),
    }
}

/// The trees of a script's statements, or a refusal by the lexer or parser. `OutOfMemory` says nothing about the
/// script.
#[tactic(auto, using(crate::specs::Reading::too_long, crate::specs::Reading::not_utf8), unfolding(ksql_types::specs::Text::longest_text))]
pub fn trees_of_script(alloc: Global, script: &[u8]) -> Result<Vec<Statement>, ScriptFault>
    ensures { IsRead script.now result }
{
    if script.len() > LONGEST_SCRIPT {
        return Err(refused(0, Code::TooLarge));
    }
    match str::from_utf8(script) {
        Ok(text) => trees_of_text(alloc, text),
        Err(_) => Err(refused(0, Code::Syntax)),
    }
}

/// The trees of a text's statements, or its refusal.
#[tactic(auto, using(crate::specs::Reading::no_token, crate::specs::Reading::no_tree, crate::specs::Reading::all_trees))]
fn trees_of_text(alloc: Global, text: &str) -> Result<Vec<Statement>, ScriptFault>
    requires { length text.now ≤ longest_text }
    ensures { IsRead text.now result }
{
    match tokens(alloc, text) {
        Ok(found) => match parse(alloc, found.as_slice()) {
            Ok(trees) => Ok(trees),
            Err(ParseFault::Refused { statement, code }) => Err(refused(statement, code)),
            Err(ParseFault::OutOfMemory) => Err(ScriptFault::OutOfMemory),
        },
        Err(LexFault::Bad { statement }) => Err(refused(statement, Code::Syntax)),
        Err(LexFault::OutOfMemory) => Err(ScriptFault::OutOfMemory),
    }
}

/// The refusal of a statement, with its code.
fn refused(statement: u32, code: Code) -> ScriptFault
    ensures { result ≡ ScriptFault.Refused statement code }
{
    ScriptFault::Refused { statement, code }
}
