//! GoodCRCs and frames on the wire.
use pd::{Header, Kind, Message};
use std::test::Fail;

/// A MESSAGE_HEADER_INFO: revision 2.0, all else 0.
const INFO: u8 = 0x02;

#[test]
fn frame_of_sop_is_acknowledged_with_41h_02h(rt: HostRuntime) -> Result<(), Fail> {
    let Some(frame) = Message::arrived(0, &[0xA6, 0x03]) else {
        return Err(Fail::new("two bytes of type 0 are in range"));
    };
    let given = Header::good_crc(INFO, frame.kind(), frame.header());
    assert_eq!(rt;
        given,
        Header {
            low: 0x41,
            high: 0x02
        }
    );
    Ok(())
}

#[test]
fn cable_plug_gets_no_data_role(rt: HostRuntime) {
    let received = Header {
        low: 0xA6,
        high: 0x03,
    };
    let given = Header::good_crc(0x1B, Kind::SopPrime, received);
    assert_eq!(rt;
        given,
        Header {
            low: 0x41,
            high: 0x03
        }
    );
}

#[test]
fn frames_have_2_to_30_bytes(rt: HostRuntime) {
    assert!(rt; Message::arrived(0, &[0; 1]).is_none());
    assert!(rt; Message::arrived(0, &[0; 30]).is_some());
    assert!(rt; Message::arrived(0, &[0; 31]).is_none());
    assert!(rt; Message::arrived(5, &[0; 2]).is_none());
}
