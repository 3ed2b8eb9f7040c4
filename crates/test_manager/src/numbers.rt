//! The numbers of handles.

use ffm_model::Handle;
use handle_table::{Family, slot_of, stateless_index};
use object_pools::Slot;

/// A number, whose slot it names, and the index of the stateless handle that it is.
struct NumberRow(i32, Option<(Family, u32, u32)>, Option<u32>);

const CONNECTION: Family = Family::Connection;

const MESSAGE: Family = Family::Message;

const NUMBERS: [NumberRow; 28] = [
    NumberRow(1024, Some((CONNECTION, 0, 1)), None),
    NumberRow(1279, Some((CONNECTION, 255, 1)), None),
    NumberRow(2051, Some((CONNECTION, 3, 2)), None),
    NumberRow(0x3fff_fcff, Some((CONNECTION, 255, 0xf_ffff)), None),
    NumberRow(1536, Some((MESSAGE, 0, 1)), None),
    NumberRow(1791, Some((MESSAGE, 255, 1)), None),
    NumberRow(2563, Some((MESSAGE, 3, 2)), None),
    NumberRow(0x3fff_feff, Some((MESSAGE, 255, 0xf_ffff)), None),
    // There are more messages than connections.
    NumberRow(1792, Some((MESSAGE, 256, 1)), None),
    NumberRow(1839, Some((MESSAGE, 303, 1)), None),
    NumberRow(1840, None, None),
    NumberRow(2047, None, None),
    NumberRow(1280, None, None),
    NumberRow(1327, None, None),
    NumberRow(1535, None, None),
    // No generation is 0.
    NumberRow(1023, None, None),
    NumberRow(255, None, None),
    NumberRow(1, None, None),
    NumberRow(0, None, None),
    NumberRow(-1, None, None),
    NumberRow(i32::MIN, None, None),
    NumberRow(0x3fff_ffff, None, None),
    NumberRow(0x4000_0000, None, None),
    NumberRow(0x4000_0001, None, Some(1)),
    NumberRow(0x4000_0011, None, Some(17)),
    NumberRow(0x4000_0020, None, Some(32)),
    NumberRow(0x4000_0021, None, None),
    NumberRow(i32::MAX, None, None),
];

#[test]
fn handles_have_numbers(rt: HostRuntime) {
    for NumberRow(number, place, index) in &NUMBERS {
        let handle = Handle(*number);
        let slot = place.map(|(family, index, generation)| (family, Slot { index, generation }));
        assert!(rt; slot_of(handle) == slot, "{number}");
        assert!(rt; stateless_index(handle) == *index, "{number}");
    }
}
