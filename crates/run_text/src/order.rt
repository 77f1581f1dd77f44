//! The order of consumption of the records that were fed.
ghost use Rattle.std.specs.Prelude.{◌≡◌, ◌++◌, OnOk, map, string_bytes};
ghost use Rattle.ksql_program.specs.Program.{relations};
ghost use Rattle.run_text.specs.Report.{order_text, topic_name};

use crate::printed::push_order_line;
use ksql_place::SourceRecord;
use ksql_program::{Item, relation_of};
use std::alloc::AllocError;

/// Appends the order of consumption: its length and a line per record.
#[tactic(auto, unfolding(crate::specs::Report::order_text, crate::specs::Report::fed_line))]
pub fn push_order(
    out: &mut String,
    items: &[Item],
    order: &[&SourceRecord],
) -> Result<(), AllocError>
    ensures { OnOk result (string_bytes out.new
        ≡ string_bytes out.old ++ order_text (relations items.now) (map (λ r. r.now) order.now)) }
{
    writeln!(out, "order {}", order.len())?;
    for fed in order {
        let topic = topic_name(items, fed.stamp.topic);
        push_order_line(out, topic, fed)?;
    }
    Ok(())
}

/// The topic of the relation with this number, or the empty text where there is none.
fn topic_name(items: &[Item], number: u32) -> &str
    ensures { result.now ≡ topic_name (relations items.now) number }
{
    match items.get(number as usize) {
        Some(item) => relation_of(item).topic.items(),
        None => "",
    }
}
