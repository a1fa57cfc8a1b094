//! The small cases of decoding.
use transfer::{Refusal, WriteRequest, decode_read, decode_write};

/// The number of the refusal, if there is one.
fn refused<T: Copy>(decoded: Result<T, Refusal>) -> Option<u8> {
    decoded.err().map(u8::from)
}

#[test]
fn writes_are_judged_in_order(rt: HostRuntime) {
    assert_eq!(rt; refused(decode_write(&[])), Some(1));
    assert_eq!(rt; refused(decode_write(&[0x11, 0x00])), Some(2));
    assert_eq!(rt; refused(decode_write(&[0x1D])), Some(3));
    assert_eq!(rt; refused(decode_write(&[0x10, 0x00])), Some(4));
    assert_eq!(rt; refused(decode_write(&[0x51])), Some(4));
    assert_eq!(rt; refused(decode_write(&[0x51, 0x01])), Some(5));
    assert_eq!(rt; refused(decode_write(&[0x51, 0x00])), None);
}

#[test]
fn reads_are_judged_in_order(rt: HostRuntime) {
    assert_eq!(rt; refused(decode_read(0x99, 2, 1)), Some(13));
    assert_eq!(rt; refused(decode_read(0x99, 2, 2)), Some(2));
    assert_eq!(rt; refused(decode_read(0x23, 9, 9)), Some(3));
    assert_eq!(rt; refused(decode_read(0x30, 33, 64)), Some(4));
    assert_eq!(rt; refused(decode_read(0x30, 32, 32)), None);
}

#[test]
fn undefined_bits_are_dropped_and_told(rt: HostRuntime) {
    let told = WriteRequest::Byte {
        register: 0x1C,
        value: 0x61,
        stray: true,
    };
    assert_eq!(rt; decode_write(&[0x1C, 0xE1]), Ok(told));
}
