//! The texts of small demos.

use super::*;
use std::test::Fail;

#[test]
fn the_script_is_three_statements(rt: HostRuntime) {
    assert!(rt;
        script()
            .as_bytes()
            .starts_with(b"CREATE STREAM HITS (ID BIGINT KEY, ")
    );
    assert!(rt;
        script()
            .as_bytes()
            .ends_with(b" WINDOW TUMBLING (SIZE 1 MINUTE) GROUP BY PAGE;\n")
    );
    assert_eq!(rt;
        script()
            .as_bytes()
            .iter()
            .filter(|byte| **byte == b';')
            .count(),
        3
    );
    assert_eq!(rt; script().len(), 327);
}

#[test]
fn a_file_begins_at_zero_and_ends_before_its_count(rt: HostRuntime) -> Result<(), Fail> {
    let file = topic_file(rt.alloc(), 1235)?;
    let first_two = "{\"t\":0,\"k\":0,\"v\":{\"PAGE\":\"p0\",\"N\":0}}
{\"t\":1000,\"k\":1,\"v\":{\"PAGE\":\"p1\",\"N\":1}}
";
    let last = "\n{\"t\":1234000,\"k\":234,\"v\":{\"PAGE\":\"p4\",\"N\":34}}\n";
    assert!(rt; file.as_slice().starts_with(first_two.as_bytes()));
    assert!(rt; file.as_slice().ends_with(last.as_bytes()));
    Ok(())
}

#[test]
fn a_file_of_no_records_is_empty(rt: HostRuntime) -> Result<(), Fail> {
    assert!(rt; topic_file(rt.alloc(), 0)?.is_empty());
    Ok(())
}

#[test]
fn twenty_five_records_are_fed_by_three(rt: HostRuntime) -> Result<(), Fail> {
    let text = schedule(rt.alloc(), 25)?;
    let mut rest = text.as_slice();
    for _ in 0..10 {
        match rest.strip_prefix(b"feed hits 3\nround lose 1\nstart 1\n".as_slice()) {
            Some(behind) => rest = behind,
            None => Err("no feed of three")?,
        }
    }
    assert_eq!(rt; rest, b"drain\n".as_slice());
    Ok(())
}
