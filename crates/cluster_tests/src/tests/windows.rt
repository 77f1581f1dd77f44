//! Windows with grace: hopping windows, a record that comes too late, also after a loss, and a script with all kinds of
//! query.
ghost use Rattle.std.specs.Prelude.{All, IfOk};
ghost use Rattle.cluster_core.specs.Cluster.{IsBuilt};

use crate::run;
use cluster_core::Step;
use ksql_types::{Items, TaskName};
use std::alloc::{AllocError, Global};
use std::test::Fail;
use topology::Count;

/// The number of records of each key in windows of ten milliseconds that begin every five.
const HOPPING: &str = "CREATE STREAM E (K VARCHAR KEY, N INTEGER)
  WITH (KAFKA_TOPIC='e', VALUE_FORMAT='JSON', PARTITIONS=1);
CREATE TABLE H AS SELECT K, COUNT(*) AS C FROM E
  WINDOW HOPPING (SIZE 10 MILLISECONDS, ADVANCE BY 5 MILLISECONDS) GROUP BY K;
";

const TWO_TIMES: &str = "{\"t\":12,\"k\":\"a\",\"v\":{\"N\":0}}
{\"t\":3,\"k\":\"a\",\"v\":{\"N\":0}}
";

const THREE_WINDOWS: &str = "order 2
1 e 0 0 12
1 e 0 1 3
stream E declared c=1 skipped=0 changes=2
{\"p\":0,\"t\":12,\"k\":\"a\",\"v\":{\"N\":0}}
{\"p\":0,\"t\":3,\"k\":\"a\",\"v\":{\"N\":0}}
windowed H query c=1 changes=3 rows=3
{\"p\":0,\"t\":12,\"k\":\"a\",\"w\":[5,15],\"v\":{\"C\":1}}
{\"p\":0,\"t\":12,\"k\":\"a\",\"w\":[10,20],\"v\":{\"C\":1}}
{\"p\":0,\"t\":3,\"k\":\"a\",\"w\":[0,10],\"v\":{\"C\":1}}
row {\"t\":3,\"k\":\"a\",\"w\":[0,10],\"v\":{\"C\":1}}
row {\"t\":12,\"k\":\"a\",\"w\":[5,15],\"v\":{\"C\":1}}
row {\"t\":12,\"k\":\"a\",\"w\":[10,20],\"v\":{\"C\":1}}
end
";

/// The same in windows that don't overlap, and stay open for five more milliseconds.
const GRACE: &str = "CREATE STREAM E (K VARCHAR KEY, N INTEGER)
  WITH (KAFKA_TOPIC='e', VALUE_FORMAT='JSON', PARTITIONS=1);
CREATE TABLE W AS SELECT K, COUNT(*) AS C FROM E
  WINDOW TUMBLING (SIZE 10 MILLISECONDS, GRACE PERIOD 5 MILLISECONDS) GROUP BY K;
";

const FOUR_TIMES: &str = "{\"t\":24,\"k\":\"a\",\"v\":{\"N\":0}}
{\"t\":12,\"k\":\"a\",\"v\":{\"N\":0}}
{\"t\":25,\"k\":\"a\",\"v\":{\"N\":0}}
{\"t\":12,\"k\":\"a\",\"v\":{\"N\":0}}
";

const ONE_IS_LATE: &str = "
windowed W query c=1 changes=3 rows=2
{\"p\":0,\"t\":24,\"k\":\"a\",\"w\":[20,30],\"v\":{\"C\":1}}
{\"p\":0,\"t\":12,\"k\":\"a\",\"w\":[10,20],\"v\":{\"C\":1}}
{\"p\":0,\"t\":25,\"k\":\"a\",\"w\":[20,30],\"v\":{\"C\":2}}
row {\"t\":12,\"k\":\"a\",\"w\":[10,20],\"v\":{\"C\":1}}
row {\"t\":25,\"k\":\"a\",\"w\":[20,30],\"v\":{\"C\":2}}
end
";

const LATE_AFTER_A_LOSS: &str = "order 4
1 e 0 0 24
1 e 0 1 12
1 e 0 2 25
2 e 0 3 12
stream E declared c=2 skipped=0 changes=4
{\"p\":0,\"t\":24,\"k\":\"a\",\"v\":{\"N\":0}}
{\"p\":0,\"t\":12,\"k\":\"a\",\"v\":{\"N\":0}}
{\"p\":0,\"t\":25,\"k\":\"a\",\"v\":{\"N\":0}}
{\"p\":0,\"t\":12,\"k\":\"a\",\"v\":{\"N\":0}}
windowed W query c=2 changes=3 rows=2
{\"p\":0,\"t\":24,\"k\":\"a\",\"w\":[20,30],\"v\":{\"C\":1}}
{\"p\":0,\"t\":12,\"k\":\"a\",\"w\":[10,20],\"v\":{\"C\":1}}
{\"p\":0,\"t\":25,\"k\":\"a\",\"w\":[20,30],\"v\":{\"C\":2}}
row {\"t\":12,\"k\":\"a\",\"w\":[10,20],\"v\":{\"C\":1}}
row {\"t\":25,\"k\":\"a\",\"w\":[20,30],\"v\":{\"C\":2}}
end
";

/// Clicks with the users' names, the number of clicks on each page, and their number per ten seconds.
const CLICKS: &str = "CREATE STREAM clicks (user VARCHAR KEY, page VARCHAR, n INT)
  WITH (KAFKA_TOPIC='clicks', VALUE_FORMAT='json', PARTITIONS=2);
CREATE TABLE users (id STRING PRIMARY KEY, `name` STRING)
  WITH (KAFKA_TOPIC='users', VALUE_FORMAT='JSON', PARTITIONS=2);
CREATE STREAM enriched AS SELECT c.user, u.`name` AS who, c.page
  FROM clicks c LEFT JOIN users u ON c.user = u.id EMIT CHANGES;
CREATE TABLE per_page AS SELECT page, COUNT(*) AS hits
  FROM enriched GROUP BY page;
CREATE TABLE hops AS SELECT page, COUNT(*) AS hits, WINDOWSTART AS ws
  FROM clicks WINDOW HOPPING (SIZE 10 SECONDS, ADVANCE BY 5 SECONDS)
  GROUP BY page EMIT CHANGES;
";

const CLICKED: &str = "{\"t\":12000,\"k\":\"a\",\"v\":{\"page\":\"p\",\"n\":1}}
{\"t\":3000,\"k\":\"b\",\"v\":{\"page\":\"p\"}}
";

const USERS: &str = "
{\"t\":1000,\"k\":\"a\",\"v\":{\"name\":\"Ann\"}}
";

const REPORT: &str = "order 3
1 users 1 0 1000
1 clicks 0 0 3000
1 clicks 1 0 12000
stream CLICKS declared c=1 skipped=0 changes=2
{\"p\":0,\"t\":3000,\"k\":\"b\",\"v\":{\"PAGE\":\"p\",\"N\":null}}
{\"p\":1,\"t\":12000,\"k\":\"a\",\"v\":{\"PAGE\":\"p\",\"N\":1}}
table USERS declared c=1 skipped=0 changes=1 rows=1
{\"p\":1,\"t\":1000,\"k\":\"a\",\"v\":{\"name\":\"Ann\"}}
row {\"t\":1000,\"k\":\"a\",\"v\":{\"name\":\"Ann\"}}
stream ENRICHED query c=1 changes=2
{\"p\":0,\"t\":3000,\"k\":\"b\",\"v\":{\"WHO\":null,\"PAGE\":\"p\"}}
{\"p\":1,\"t\":12000,\"k\":\"a\",\"v\":{\"WHO\":\"Ann\",\"PAGE\":\"p\"}}
table PER_PAGE query c=1 changes=2 rows=1
{\"p\":0,\"t\":3000,\"k\":\"p\",\"v\":{\"HITS\":1}}
{\"p\":0,\"t\":12000,\"k\":\"p\",\"v\":{\"HITS\":2}}
row {\"t\":12000,\"k\":\"p\",\"v\":{\"HITS\":2}}
windowed HOPS query c=1 changes=3 rows=3
{\"p\":0,\"t\":3000,\"k\":\"p\",\"w\":[0,10000],\"v\":{\"HITS\":1,\"WS\":0}}
{\"p\":0,\"t\":12000,\"k\":\"p\",\"w\":[5000,15000],\"v\":{\"HITS\":1,\"WS\":5000}}
{\"p\":0,\"t\":12000,\"k\":\"p\",\"w\":[10000,20000],\"v\":{\"HITS\":1,\"WS\":10000}}
row {\"t\":3000,\"k\":\"p\",\"w\":[0,10000],\"v\":{\"HITS\":1,\"WS\":0}}
row {\"t\":12000,\"k\":\"p\",\"w\":[5000,15000],\"v\":{\"HITS\":1,\"WS\":5000}}
row {\"t\":12000,\"k\":\"p\",\"w\":[10000,20000],\"v\":{\"HITS\":1,\"WS\":10000}}
end
";

/// All records at once, and as many rounds as the chain.
fn at_once(alloc: Global) -> Result<Vec<Step>, AllocError>
    ensures { IfOk result (λ steps. All IsBuilt steps.items) }
{
    Ok(vec![in alloc; Step::FeedAll, Step::Drain]?)
}

/// The next `n` records of the first relation.
fn feed(alloc: Global, n: u64) -> Result<Step, AllocError>
    ensures { IfOk result IsBuilt }
{
    let counts = vec![in alloc; Count { topic: 0, n }]?;
    Ok(Step::Feed(Items::of(counts)))
}

#[test]
fn a_record_stands_in_each_window_of_its_time(rt: HostRuntime) -> Result<(), Fail> {
    let alloc = rt.alloc();
    let ran = run(alloc, HOPPING, &[TWO_TIMES], 1, at_once(alloc)?)?;
    assert_eq!(rt; ran.report.as_str(), THREE_WINDOWS);
    Ok(())
}

#[test]
fn a_late_record_stays_out(rt: HostRuntime) -> Result<(), Fail> {
    let alloc = rt.alloc();
    let ran = run(alloc, GRACE, &[FOUR_TIMES], 1, at_once(alloc)?)?;
    assert!(rt; ran.report.as_str().ends_with(ONE_IS_LATE));
    Ok(())
}

#[test]
fn a_late_record_stays_out_after_a_loss(rt: HostRuntime) -> Result<(), Fail> {
    let alloc = rt.alloc();
    let lost = TaskName { sub: 0, part: 0 };
    let steps = vec![in alloc;
        feed(alloc, 3)?,
        Step::Drain,
        Step::Lose(lost),
        feed(alloc, 1)?,
        Step::Drain,
    ]?;
    let ran = run(alloc, GRACE, &[FOUR_TIMES], 1, steps)?;
    assert_eq!(rt; ran.report.as_str(), LATE_AFTER_A_LOSS);
    Ok(())
}

#[test]
fn any_number_of_workers_shows_the_same(rt: HostRuntime) -> Result<(), Fail> {
    let alloc = rt.alloc();
    for workers in [1, 3, 8] {
        let ran = run(alloc, CLICKS, &[CLICKED, USERS], workers, at_once(alloc)?)?;
        assert_eq!(rt; ran.report.as_str(), REPORT);
    }
    Ok(())
}
