// One text for each reason of a refusal, and a graph of every kind.
use graph::{Draft, Graph, Refused, Rows, read};
use items::Refusal;
use model::{Call, Edge, Kind};

// Whether a text is a graph.
fn verdict(text: &[u8]) -> Result<(), Refused> {
    read(text)?;
    Ok(())
}

fn refused(refusal: Refusal, line: usize) -> Result<(), Refused> {
    Err(Refused { refusal, line })
}

#[test]
fn every_kind(rt: HostRuntime) {
    let text =
        b"worker source a\nworker keep 1 1\nworker scale 0 1\nworker group 1\nworker spread\nworker window 1\nworker sink\nedge 0 1\nedge 1 2\nedge 2 3\nedge 3 4\nedge 4 5\nedge 5 6";
    assert_eq!(rt; verdict(text), Ok(()));
}

#[test]
fn bad_lines(rt: HostRuntime) {
    assert_eq!(rt; verdict(b""), refused(Refusal::BadLine, 1), "no worker");
    assert_eq!(rt;
        verdict(b"edge 0 1\n"),
        refused(Refusal::BadLine, 2),
        "no worker behind an edge"
    );
    assert_eq!(rt;
        verdict(b"worker source a\n\n"),
        refused(Refusal::BadLine, 2),
        "an empty line"
    );
    assert_eq!(rt;
        verdict(b"worker  sink\n"),
        refused(Refusal::BadLine, 1),
        "two spaces"
    );
    assert_eq!(rt;
        verdict(b"worker sink\r\n"),
        refused(Refusal::BadLine, 1),
        "a carriage return"
    );
    assert_eq!(rt;
        verdict(b"worker group 01\n"),
        refused(Refusal::BadLine, 1),
        "a leading zero"
    );
    assert_eq!(rt;
        verdict(b"worker group 4294967296\n"),
        refused(Refusal::BadLine, 1),
        "33 bits"
    );
    assert_eq!(rt;
        verdict(b"worker source \xff\n"),
        refused(Refusal::BadLine, 1),
        "a name that is no text"
    );
}

#[test]
fn bad_graphs(rt: HostRuntime) {
    assert_eq!(rt;
        verdict(b"worker source a\nworker keep 2 1\nworker sink\nedge 0 1\nedge 1 2"),
        refused(Refusal::BadGraph, 2),
        "low above high"
    );
    assert_eq!(rt;
        verdict(b"worker source a\nworker scale 1 0\nworker sink\nedge 0 1\nedge 1 2"),
        refused(Refusal::BadGraph, 2),
        "a division by 0"
    );
    assert_eq!(rt;
        verdict(b"worker source a\nworker window 0\nworker sink\nedge 0 1\nedge 1 2"),
        refused(Refusal::BadGraph, 2),
        "a length of 0"
    );
    assert_eq!(rt;
        verdict(b"worker source a\nworker sink\nedge 0 1\nedge 1 1"),
        refused(Refusal::BadGraph, 4),
        "an edge that does not go up"
    );
    assert_eq!(rt;
        verdict(b"worker source a\nworker sink\nedge 0 1\nedge 0 2"),
        refused(Refusal::BadGraph, 4),
        "an edge to nowhere"
    );
    assert_eq!(rt;
        verdict(b"worker source a\nworker source b\nworker sink\nedge 0 2\nedge 1 2\nedge 0 1"),
        refused(Refusal::BadGraph, 6),
        "into a source"
    );
    assert_eq!(rt;
        verdict(b"worker source a\nworker sink\nworker sink\nedge 0 1\nedge 0 2\nedge 1 2"),
        refused(Refusal::BadGraph, 6),
        "out of a sink"
    );
    assert_eq!(rt;
        verdict(b"worker source a\nworker sink\nworker sink\nedge 0 1"),
        refused(Refusal::BadGraph, 3),
        "no edge reaches it"
    );
    assert_eq!(rt;
        verdict(b"worker source a\nworker source b\nworker sink\nedge 0 2"),
        refused(Refusal::BadGraph, 2),
        "no edge leaves it"
    );
}

#[test]
fn the_lowest_number_first(rt: HostRuntime) {
    assert_eq!(rt;
        verdict(b"worker sink\nworker sink\nworker sin\nworker si\n"),
        refused(Refusal::BadLine, 3)
    );
}

// Whoever proves that a draft keeps all rules, as the check does here, can make a graph of it.
#[test]
fn made_without_a_text(rt: HostRuntime) {
    let mut kinds = [Kind::Source; 32];
    kinds[1] = Kind::Sink;
    let graph = Graph {
        draft: Draft {
            workers: Rows {
                items: kinds,
                lines: [1; 32],
                len: 2,
            },
            edges: Rows {
                items: [Edge { from: 0, to: 1 }; 64],
                lines: [3; 64],
                len: 1,
            },
        },
    };
    assert_eq!(rt; graph.kinds().len(), 2);
    assert_eq!(rt; graph.ends().len(), 1);
    assert_eq!(rt; graph.addresses(Call::Feed { worker: 0 }), true);
    assert_eq!(rt; graph.addresses(Call::Feed { worker: 1 }), false);
    assert_eq!(rt; graph.addresses(Call::Step { worker: 1, edge: 0 }), true);
    assert_eq!(rt; graph.addresses(Call::Step { worker: 1, edge: 1 }), false);
}
