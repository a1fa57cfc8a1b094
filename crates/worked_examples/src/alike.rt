//! What is read alike is equal: what a caller proves by naming the law that says so.
ghost use Rattle.std.specs.Prelude.{◌≡◌, true, Some};
ghost use Rattle.pd.specs.Messages.{content, well_formed};
ghost use Rattle.sender.specs.Sendings.{sending_of};

use front_end::{FrontEnd, OnLine};
use pd::{Kind, Message};
use sender::{Accepted, Sender};
use sink_board::SinkBoard;
use std::test::Fail;

/// Made anew of what it tells, a message is the same.
#[tactic(auto, using(pd::specs::Messages::same_option))]
fn made_again(message: &Message) -> Option<Message>
    ensures { result ≡ Some message.now }
{
    Message::new(message.kind(), message.bytes())
}

/// Arrived anew by its number and its bytes, a well-formed one is the same.
#[tactic(auto, using(pd::specs::Messages::same_option))]
fn arrived_again(message: &Message) -> Option<Message>
    ensures { well_formed (content message.now) ≡ true → result ≡ Some message.now }
{
    Message::arrived(message.kind().into(), message.bytes())
}

/// Two senders that hold the same answer the same.
#[tactic(auto, using(sender::specs::Same::same_accepted))]
fn transmitted_by_both(
    one: &mut Sender,
    other: &mut Sender,
    value: u8,
    held_back: bool,
) -> (Accepted, Accepted)
    ensures { sending_of one.old ≡ sending_of other.old → result.0 ≡ result.1 }
{
    (
        one.transmit(value, held_back),
        other.transmit(value, held_back),
    )
}

/// Asked twice, a front end tells the same of its line.
#[tactic(auto, using(front_end::specs::Same::same_line))]
fn told_twice<F: FrontEnd>(front: &F) -> (Option<OnLine>, Option<OnLine>)
    ensures { result.0 ≡ result.1 }
{
    (front.line(), front.line())
}

#[test]
fn a_message_is_what_it_tells(rt: HostRuntime) -> Result<(), Fail> {
    let Some(frame) = Message::arrived(0, &[0xA6, 0x03]) else {
        return Err(Fail::new("two bytes of type 0 are in range"));
    };
    let (Some(made), Some(arrived)) = (made_again(&frame), arrived_again(&frame)) else {
        return Err(Fail::new("it is made and arrives again"));
    };
    assert!(rt; made.kind() == frame.kind());
    assert!(rt; arrived.bytes() == frame.bytes());
    assert!(rt; arrived_again(&Message::without_bytes(Kind::HardReset)).is_none());
    Ok(())
}

#[test]
fn senders_alike_answer_alike(rt: HostRuntime) -> Result<(), Fail> {
    let (mut one, mut other) = (Sender::new(), Sender::new());
    let (first, second) = transmitted_by_both(&mut one, &mut other, 0x05, false);
    let (Some(first), Some(second)) = (first.started, second.started) else {
        return Err(Fail::new("both start a Hard Reset"));
    };
    assert!(rt; first.kind() == Kind::HardReset);
    assert!(rt; second.kind() == Kind::HardReset);
    Ok(())
}

#[test]
fn a_line_is_what_it_tells(rt: HostRuntime) -> Result<(), Fail> {
    let mut board = SinkBoard::new();
    board.send(&Message::without_bytes(Kind::HardReset));
    let (Some(first), Some(second)) = told_twice(&board) else {
        return Err(Fail::new("a sending is on the line"));
    };
    assert!(rt; first.message.kind() == second.message.kind());
    assert!(rt; first.starts == second.starts);
    Ok(())
}
