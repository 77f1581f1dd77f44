//! The law of programs. Its function does nothing.
ghost use Rattle.std.specs.Prelude.{List};
ghost use Rattle.ksql_analyse.specs.Judgement.{AreParsed, IsProgramOf};
ghost use Rattle.statement_trees.specs.declared.tree.Statement.{Statement as OneStatement};
ghost use Rattle.ksql_program.specs.declared.program.Item.{Item as OneItem};
ghost use Rattle.ksql_program.specs.Sound.{IsSound};

/// The program of accepted statements is sound: its relations have distinct names and topics, and columns and
/// partitions within the limits; and each query reads earlier relations, makes what its columns say, uses ROWTIME over
/// streams alone, and has its key and fewer aggregates than four bytes can count.
pub fn programs_are_sound()
    ensures { (statements : List OneStatement) (items : List OneItem) → AreParsed statements
        → IsProgramOf statements items → IsSound items }
{}
