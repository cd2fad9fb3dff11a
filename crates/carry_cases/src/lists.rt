use carry::carry;
use std::process::Abort;

const MOST: usize = 256;

// Bytes that no answer has, each unlike its neighbours.
fn pattern() -> [u8; MOST] {
    let mut list = [0; MOST];
    for (index, byte) in list.iter_mut().enumerate() {
        *byte = 128 + (index % 128) as u8;
    }
    list
}

// Carry works the sheet, with so many bytes of a list: it writes these answers, ends with this number, and leaves all bytes
// behind the answers as they were.
pub(crate) fn carries<R: Abort>(rt: &R, sheet: &str, room: usize, expected: &[u8], number: u32) {
    let before = pattern();
    let mut list = before;
    assert!(rt; room <= MOST);
    let carried = carry(sheet.as_bytes(), &mut list[..room]);
    let told = (carried.count, carried.number());
    assert_eq!(rt; told, (expected.len(), number), "{sheet:?} in {room}");
    let (written, rest) = list.split_at(carried.count);
    assert_eq!(rt; written, expected, "{sheet:?} in {room}");
    assert_eq!(rt; rest, &before[carried.count..], "{sheet:?} in {room}");
}
