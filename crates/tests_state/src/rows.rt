//! Rows that are added to a graph and returned in turn.
use cs_graph::{Added, Graph, GraphRefusal};
use std::process::Abort;
use std::test::Fail;

// A call of a graph, and its result.
#[derive(Clone, Copy)]
enum Step {
    /// Adds a row with this key and this many visits.
    Add(u64, u64, Result<Added, GraphRefusal>),
    /// Returns the next row.
    Give(Option<u32>),
}

// Steps of a graph of at most four rows.
const STEPS: [Step; 12] = [
    Step::Add(70, 0, Ok(Added::New(0))),
    Step::Give(Some(0)),
    Step::Give(None),
    Step::Add(71, 2, Ok(Added::New(1))),
    Step::Add(72, 1, Ok(Added::New(2))),
    Step::Add(71, 0, Ok(Added::Old(1))),
    Step::Add(73, 2, Ok(Added::New(3))),
    Step::Add(70, 5, Ok(Added::Old(0))),
    Step::Add(74, 0, Err(GraphRefusal::Full)),
    Step::Give(Some(2)),
    Step::Give(Some(1)),
    Step::Give(Some(3)),
];

fn run(rt: &impl Abort, steps: &[Step], graph: &mut Graph<u64, u64>) {
    for step in steps {
        match *step {
            Step::Add(key, visits, expected) => {
                assert_eq!(rt; graph.add(key, visits, key), expected);
            }
            Step::Give(expected) => assert_eq!(rt; graph.next(), expected),
        }
    }
}

#[test]
fn rows_are_merged_and_given_by_visits(rt: HostRuntime) -> Result<(), Fail> {
    let mut graph = Graph::new(rt.alloc(), 4);
    run(&rt, STEPS.as_slice(), &mut graph);
    assert_eq!(rt; graph.next(), None);
    let rows = graph.into_rows();
    assert_eq!(rt; rows.as_slice(), [70, 71, 72, 73].as_slice());
    Ok(())
}
