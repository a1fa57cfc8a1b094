//! What a caller may do with the public types: each written once, so that it goes on to be proved.
use front_end::{BoardLine, FrontEnd, LendsLine, MOST_STARTS, OnLineRef, Path, Starts};
use pd::{Kind, Message};
use port::{Identifiers, Port};
use receiver::Receiver;
use registers::{Effect, Front, Registers};
use relay_board::RelayBoard;
use sender::Sender;
use sink_board::SinkBoard;
use std::mem;
use std::test::Fail;
use transfer::address;

const IDENTIFIERS: Identifiers = Identifiers {
    vendor: 0x1FC9,
    product: 0x0051,
    device: 0x0001,
};

/// A board that a caller holds goes into a port by value and comes back.
#[test]
fn a_board_in_hand_is_powered_on_and_off(rt: HostRuntime) {
    let mut board = RelayBoard::new();
    board.set_path(Path::Sink);
    let port = Port::power_on(board, IDENTIFIERS);
    let board = port.power_off();
    assert!(rt; board.path() == Path::Off);
}

/// What was told of a line is the caller's, whatever the front end is told next.
#[test]
fn a_line_told_is_kept(rt: HostRuntime) {
    let mut board = SinkBoard::new();
    board.send(&Message::without_bytes(Kind::HardReset));
    let before = board.line();
    board.quiet();
    assert!(rt; before.is_some());
    assert!(rt; board.line().is_none());
}

/// The starts on the line of a board to come, counted up to the most.
#[derive(Clone, Copy)]
struct Counted {
    count: u8,
}

impl Starts for Counted {
    ghost made = { λ starts. starts.count };

    fn first() -> Counted {
        Counted { count: 1 }
    }

    fn again(self) -> Counted {
        Counted {
            count: MOST_STARTS.min(self.count.saturating_add(1)),
        }
    }

    fn made(self) -> u8 {
        self.count
    }
}

fn message_on<S: Starts>(line: &BoardLine<S>) -> Option<&Message> {
    Some(line.on_line()?.message)
}

/// The message on a line is read where it lies, for as long as the line is lent.
#[test]
fn a_line_lends_its_message(rt: HostRuntime) -> Result<(), Fail> {
    let mut line: BoardLine<Counted> = BoardLine::new();
    assert!(rt; message_on(&line).is_none());
    line.send(&Message::without_bytes(Kind::CableReset));
    line.again();
    let Some(OnLineRef { message, starts }) = line.on_line() else {
        return Err(Fail::new("a sending is on the line"));
    };
    assert!(rt; message.kind() == Kind::CableReset);
    assert!(rt; starts == 2);
    let Some(message) = message_on(&line) else {
        return Err(Fail::new("its message is lent on"));
    };
    assert!(rt; message.kind() == Kind::CableReset);
    let Some(kept) = line.copied() else {
        return Err(Fail::new("it is copied as well"));
    };
    line.quiet();
    assert!(rt; line.on_line().is_none());
    assert!(rt; kept.starts == 2);
    Ok(())
}

fn message_lent<F: LendsLine>(front: &F) -> Option<&Message> {
    Some(front.on_line()?.message)
}

/// Each board lends the message on its line, for as long as the board is lent.
#[test]
fn each_board_lends_its_line(rt: HostRuntime) -> Result<(), Fail> {
    let (mut relay, mut sink) = (RelayBoard::new(), SinkBoard::new());
    relay.send(&Message::without_bytes(Kind::HardReset));
    sink.send(&Message::without_bytes(Kind::CableReset));
    let (Some(first), Some(second)) = (message_lent(&relay), message_lent(&sink)) else {
        return Err(Fail::new("a sending is on each line"));
    };
    assert!(rt; first.kind() == Kind::HardReset);
    assert!(rt; second.kind() == Kind::CableReset);
    relay.quiet();
    sink.quiet();
    assert!(rt; message_lent(&relay).is_none());
    assert!(rt; message_lent(&sink).is_none());
    Ok(())
}

/// Any effect that a write may have is handed to the register file, which looks for its own.
#[test]
fn an_effect_of_another_part_leaves_detection(rt: HostRuntime) {
    let mut file = Registers::power_on(IDENTIFIERS);
    let front = Front {
        has: <SinkBoard as FrontEnd>::CAPABILITIES,
        path: Path::Off,
    };
    file.detect(Some(Effect::Arm));
    assert!(rt; file.value_at(address::POWER_STATUS, front) == 0x08);
    file.detect(Some(Effect::Detect(false)));
    assert!(rt; file.value_at(address::POWER_STATUS, front) == 0x00);
}

fn emptied(mut sender: Sender) -> Sender {
    sender.empty();
    sender
}

/// A sender, and what it accepted, are handed to generic code; a sender is passed by value and kept as well.
#[test]
fn a_sender_is_handed_on_and_kept(rt: HostRuntime) {
    let mut sender = Sender::new();
    assert!(rt; sender.append(&[0x4D, 0x04]).is_ok());
    let filled = mem::replace(&mut sender, Sender::new());
    let (other, kept) = (emptied(filled), filled);
    assert!(rt; sender.judge(0x00).is_err());
    assert!(rt; other.judge(0x00).is_err());
    assert!(rt; kept.judge(0x00).is_ok());
    let mut last = sender.transmit(0x05, false);
    let earlier = mem::replace(&mut last, sender.transmit(0x05, false));
    assert!(rt; earlier.ended.is_none());
    assert!(rt; last.ended.is_some());
}

/// A message is passed by value as often as wanted, alone and in an `Option`.
#[test]
fn a_message_is_passed_on_again(rt: HostRuntime) -> Result<(), Fail> {
    let mut receiver = Receiver::new();
    let found = Message::arrived(0, &[0xA6, 0x03]);
    let (first, second) = (found, found);
    assert!(rt; first.is_some());
    let Some(frame) = second else {
        return Err(Fail::new("two bytes of type 0 are in range"));
    };
    assert!(rt; receiver.keep(frame).is_ok());
    assert!(rt; receiver.keep(frame).is_ok());
    let ([_, third], (_, fourth)) = ([frame, frame], (frame, frame));
    assert!(rt; receiver.keep(third).is_err());
    assert!(rt; fourth.bytes() == [0xA6, 0x03].as_slice());
    Ok(())
}

fn released(mut receiver: Receiver) -> Receiver {
    receiver.release();
    receiver
}

/// A receiver is passed on by value and kept as well.
#[test]
fn a_receiver_is_handed_on_and_kept(rt: HostRuntime) {
    let mut receiver = Receiver::new();
    assert!(rt; receiver.keep(Message::without_bytes(Kind::Sop)).is_ok());
    let (other, kept) = (released(receiver), receiver);
    assert!(rt; !other.has_waiting());
    assert!(rt; kept.has_waiting());
}

/// What a caller keeps of its own.
#[derive(Drop)]
enum Slot {
    Empty,
    Full { held: Message, count: u8 },
}

fn emptied_slot(slot: &mut Slot) -> Option<Message> {
    if let &mut Slot::Full { held, count: 1.. } = slot {
        *slot = Slot::Empty;
        return Some(held);
    }
    None
}

/// A message is bound by value out of an enum that a caller lends, and what a sender accepted is read behind an index.
#[test]
fn a_message_is_taken_out_of_what_is_lent(rt: HostRuntime) {
    let held = Message::without_bytes(Kind::CableReset);
    let mut slot = Slot::Full { held, count: 1 };
    let taken = emptied_slot(&mut slot);
    assert!(rt; taken.is_some());
    assert!(rt; emptied_slot(&mut slot).is_none());
    let mut sender = Sender::new();
    let told = [sender.transmit(0x05, false), sender.transmit(0x05, false)];
    assert!(rt; told[0].ended.is_none());
    assert!(rt; told[1].ended.is_some());
}
