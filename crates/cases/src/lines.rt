// The answers of a graph that has not begun.
use items::Refusal;
use scripts::{Answer, answer_to};
use std::test::Fail;

#[test]
fn answers(rt: HostRuntime) -> Result<(), Fail> {
    let text = b"worker source a\nworker keep 1 2\nworker sink\nedge 0 1\nedge 1 2";
    let graph = graph::read(text).map_err(|_| Fail::new("no graph"))?;
    assert_eq!(rt; answer_to(&graph, b"show"), Ok(Answer::Shown));
    assert_eq!(rt; answer_to(&graph, b"show "), Err(Refusal::BadLine));
    assert_eq!(rt; answer_to(&graph, b"step 1 0"), Err(Refusal::NothingToTake));
    assert_eq!(rt;
        answer_to(&graph, b"step 2 0"),
        Err(Refusal::NotThere),
        "another worker's edge"
    );
    assert_eq!(rt;
        answer_to(&graph, b"step 0 0"),
        Err(Refusal::NotThere),
        "a source"
    );
    assert_eq!(rt;
        answer_to(&graph, b"step 1 2"),
        Err(Refusal::NotThere),
        "no such edge"
    );
    assert_eq!(rt; answer_to(&graph, b"feed 1"), Err(Refusal::NotThere));
    assert_eq!(rt; answer_to(&graph, b"feed 0"), Ok(Answer::NotBuilt));
    assert_eq!(rt; answer_to(&graph, b"cut 0"), Ok(Answer::NotBuilt));
    assert_eq!(rt; answer_to(&graph, b"cut 1"), Err(Refusal::NotAligned));
    assert_eq!(rt; answer_to(&graph, b"cut 3"), Err(Refusal::NotThere));
    assert_eq!(rt;
        answer_to(&graph, b"declare 0"),
        Err(Refusal::NotCommittable)
    );
    assert_eq!(rt; answer_to(&graph, b"stop"), Ok(Answer::Done));
    Ok(())
}
