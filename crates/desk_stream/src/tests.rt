// What `fill` gives of a slice. Its contract does not say that it reads at all, nor for how much it asks, since a reader may fail or give less.
use crate::input::fill;
use desk_report::buffer::Bytes;

#[test]
fn fills_what_has_room(rt: HostRuntime) {
    let mut reader: &[u8] = &[1, 2, 3, 4, 5, 6, 7];
    let mut bytes: Bytes<5> = Bytes::new();
    assert_eq!(rt; fill(&mut bytes, &mut reader), Some(5));
    assert_eq!(rt; bytes.as_slice(), [1, 2, 3, 4, 5].as_slice());
    assert_eq!(rt; fill(&mut bytes, &mut reader), Some(0), "no room");
    bytes.forget(3);
    assert_eq!(rt; fill(&mut bytes, &mut reader), Some(2));
    assert_eq!(rt; bytes.as_slice(), [4, 5, 6, 7].as_slice());
    assert_eq!(rt; fill(&mut bytes, &mut reader), Some(0), "the end");
    assert_eq!(rt; bytes.as_slice(), [4, 5, 6, 7].as_slice());
}

#[test]
fn reads_at_most_4096_bytes(rt: HostRuntime) {
    let given = [9; 5000];
    let mut reader = given.as_slice();
    let mut bytes: Bytes<5000> = Bytes::new();
    assert_eq!(rt; fill(&mut bytes, &mut reader), Some(4096));
    assert_eq!(rt; fill(&mut bytes, &mut reader), Some(904));
    assert_eq!(rt; bytes.as_slice(), given.as_slice());
}
