//! The capabilities of each board.
use front_end::{Capabilities, FrontEnd};
use relay_board::RelayBoard;
use sink_board::SinkBoard;

#[test]
fn relay_board_has_everything(rt: HostRuntime) {
    let everything = Capabilities {
        default_source: true,
        nondefault_source: true,
        sink: true,
        vconn: true,
    };
    assert_eq!(rt; <RelayBoard as FrontEnd>::CAPABILITIES, everything);
}

#[test]
fn sink_board_sinks_alone(rt: HostRuntime) {
    let sink_alone = Capabilities {
        default_source: false,
        nondefault_source: false,
        sink: true,
        vconn: false,
    };
    assert_eq!(rt; <SinkBoard as FrontEnd>::CAPABILITIES, sink_alone);
}
