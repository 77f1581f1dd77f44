//! The files that `ksql demo N` runs, as texts: its script, topic file and schedule.
#![tactic(auto)]

ghost use Rattle.std.specs.Prelude.{◌≡◌, ◌++◌, IfOk, OnOk, codes, decimal, string_bytes};
ghost use Rattle.demo_files.specs.Demo.{demo_line, demo_schedule, demo_script, demo_topic_file, feed_lines, feeds_of};

use itoa::Buffer;
use std::alloc::{AllocError, Global};

#[cfg(test)]
mod tests;

/// The number of feeds in the schedule.
const FEEDS: u32 = 10;

/// The length of most lines in a file of 100,000 records, in bytes.
const LINE: usize = 48;

/// A stream of page hits, and two tables that count each page's hits: in total, and per minute.
const SCRIPT: &str = "CREATE STREAM HITS (ID BIGINT KEY, PAGE VARCHAR, N INTEGER)
  WITH (KAFKA_TOPIC='hits', VALUE_FORMAT='JSON', PARTITIONS=4);
CREATE TABLE PAGES AS SELECT PAGE, COUNT(*) AS C, SUM(N) AS TOTAL
  FROM HITS GROUP BY PAGE;
CREATE TABLE MINUTES AS SELECT PAGE, COUNT(*) AS C
  FROM HITS WINDOW TUMBLING (SIZE 1 MINUTE) GROUP BY PAGE;
";

/// The script.
#[tactic(auto, unfolding(crate::specs::Demo::demo_script))]
pub fn script() -> &'static str
    ensures { result.now ≡ demo_script }
{
    SCRIPT
}

/// The file of topic `hits`, with `records` records.
#[tactic(auto, using(crate::proofs::Texts::texts_more), unfolding(crate::specs::Demo::demo_topic_file))]
pub fn topic_file(alloc: Global, records: u32) -> Result<Vec<u8>, AllocError>
    ensures { IfOk result (λ bytes. bytes.items ≡ demo_topic_file records) }
{
    let mut out = String::with_capacity(alloc, LINE * records as usize)?;
    for i in 0..records {
        push_line(&mut out, i)?;
    }
    Ok(out.into_bytes())
}

/// Appends the line of record `i`.
#[tactic(auto, using(crate::proofs::Texts::appends), unfolding(crate::specs::Demo::demo_line))]
fn push_line(out: &mut String, i: u32) -> Result<(), AllocError>
    ensures { OnOk result (string_bytes out.new ≡ string_bytes out.old ++ demo_line i) }
{
    out.push_str("{\"t\":")?;
    push_number(out, 1000 * i as u64)?;
    out.push_str(",\"k\":")?;
    push_number(out, (i % 1000) as u64)?;
    push_value(out, i % 10, i % 100)
}

/// Appends the value of a record with this page and number, up to the end of the line.
#[tactic(auto, using(crate::proofs::Texts::appends))]
fn push_value(out: &mut String, page: u32, number: u32) -> Result<(), AllocError>
    ensures { OnOk result (string_bytes out.new ≡ string_bytes out.old
        ++ (codes ",\"v\":{\"PAGE\":\"p" ++ (decimal page ++ (codes "\",\"N\":" ++ (decimal number ++ codes "}}\n"))))) }
{
    out.push_str(",\"v\":{\"PAGE\":\"p")?;
    push_number(out, page as u64)?;
    out.push_str("\",\"N\":")?;
    push_number(out, number as u64)?;
    out.push_str("}}\n")
}

/// Appends a number.
fn push_number(out: &mut String, number: u64) -> Result<(), AllocError>
    ensures { OnOk result (string_bytes out.new ≡ string_bytes out.old ++ decimal number) }
{
    out.push_str(Buffer::new().format(number))
}

/// The schedule that feeds `records` records.
#[tactic(auto, using(crate::proofs::Texts::texts_more), unfolding(crate::specs::Demo::demo_schedule, crate::specs::Demo::feeds_of))]
pub fn schedule(alloc: Global, records: u32) -> Result<Vec<u8>, AllocError>
    ensures { IfOk result (λ bytes. bytes.items ≡ demo_schedule records) }
{
    let mut out = String::new(alloc);
    for _ in 0..FEEDS {
        push_feed(&mut out, records)?;
    }
    out.push_str("drain\n")?;
    Ok(out.into_bytes())
}

/// Appends the lines of a feed of `records` records.
#[tactic(auto, using(crate::proofs::Texts::appends), unfolding(crate::specs::Demo::feed_lines))]
fn push_feed(out: &mut String, records: u32) -> Result<(), AllocError>
    ensures { OnOk result (string_bytes out.new ≡ string_bytes out.old ++ feed_lines records) }
{
    let part = records.div_ceil(FEEDS);
    write!(out, "feed hits {part}\nround lose 1\nstart 1\n")
}
