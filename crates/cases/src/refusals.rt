// The number of each refusal.
use items::Refusal;

#[test]
fn numbers(rt: HostRuntime) {
    assert_eq!(rt; Refusal::BadLine.number(), 1);
    assert_eq!(rt; Refusal::BadGraph.number(), 2);
    assert_eq!(rt; Refusal::NothingToTake.number(), 3);
    assert_eq!(rt; Refusal::NoRoom.number(), 4);
    assert_eq!(rt; Refusal::NotThere.number(), 5);
    assert_eq!(rt; Refusal::NotAligned.number(), 6);
    assert_eq!(rt; Refusal::NotCommittable.number(), 7);
    assert_eq!(rt; Refusal::UnknownItem.number(), 8);
    assert_eq!(rt; Refusal::BadCheckpoint.number(), 9);
    assert_eq!(rt; Refusal::CounterFull.number(), 10);
}
