//! The laws of the report and of its summary. These functions do nothing.
ghost use Rattle.std.specs.Prelude.{All, List};
ghost use Rattle.ksql_place.specs.declared.change.SourceRecord.{SourceRecord as OneRecord};
ghost use Rattle.ksql_program.specs.Sound.{IsSound};
ghost use Rattle.ksql_program.specs.declared.program.Item.{Item as OneItem};
ghost use Rattle.short_laws.specs.Fed.{IsFed};
ghost use Rattle.core_state.specs.Wired.{AreCounted};
ghost use Rattle.topic_log.specs.declared.shelves.Shelves.{Shelves as OneBroker};
ghost use Rattle.report_laws.specs.Reported.{IsGoodBroker, IsOfDeclared, ReportsTheMeaning, SummarizesTheMeaning};

/// The report on what a broker in a good state shows is the report on the program's meaning for the records that were
/// fed: all of these, and each relation's meaning up to the feed up to which it is shown.
pub fn a_good_broker_reports_the_meaning()
    ensures { (items : List OneItem) (order : List OneRecord) (b : OneBroker) → IsSound items →
        IsFed items order → AreCounted order → All (IsOfDeclared items) order → IsGoodBroker items order b → ReportsTheMeaning items order b }
{}

/// The summary of what a broker in a good state shows is the summary of the program's meaning for the records that were
/// fed, with each relation up to the feed up to which it is shown.
pub fn a_good_broker_summarizes_the_meaning()
    ensures { (items : List OneItem) (order : List OneRecord) (b : OneBroker) → IsSound items →
        IsFed items order → AreCounted order → All (IsOfDeclared items) order → IsGoodBroker items order b → SummarizesTheMeaning items order b }
{}
