//! Every sequence of five calls on a room of one window and one bench, each on a room of its own, beside a plain room.

use crate::test_calls::Call;
use crate::test_plain_room::PlainRoom;
use crate::test_real_room::{RealRoom, Tools, make_tools};
use crate::test_rows::same;
use std::alloc::Global;
use std::process::Abort;
use std::test::Fail;

/// The calls, before it is known on which records they are made.
#[derive(Clone, Copy, Debug)]
enum Kind {
    Submit,
    Withdraw,
    Bye,
    Collect,
    Take,
    Solve,
    Return,
    MakeUp,
    Turn,
    Close,
    SendHome,
    Settle,
}

static KINDS: [Kind; 12] = [
    Kind::Submit,
    Kind::Withdraw,
    Kind::Bye,
    Kind::Collect,
    Kind::Take,
    Kind::Solve,
    Kind::Return,
    Kind::MakeUp,
    Kind::Turn,
    Kind::Close,
    Kind::SendHome,
    Kind::Settle,
];

/// What follows each sequence, and brings to light what lies in the room.
static THEN: [Kind; 10] = [
    Kind::Collect,
    Kind::Turn,
    Kind::Take,
    Kind::Solve,
    Kind::Turn,
    Kind::Collect,
    Kind::SendHome,
    Kind::Take,
    Kind::Turn,
    Kind::Settle,
];

/// The call on the record whose turn it is. Withdrawn is the record that was sent last, or by rings of two places the one before it;
/// what is made up bears the first ticket, which may be out.
fn call_of(kind: Kind, plain: &PlainRoom, ring: u64) -> Call {
    match kind {
        Kind::Submit => Call::Submit(plain.sent()),
        Kind::Withdraw => Call::Withdraw(plain.sent().saturating_sub(ring)),
        Kind::Bye => Call::Bye,
        Kind::Collect => Call::Collect,
        Kind::Take => Call::Take,
        Kind::Solve => Call::Solve,
        Kind::Return => Call::Return,
        Kind::MakeUp => Call::MakeUp(0),
        Kind::Turn => Call::Turn,
        Kind::Close => Call::Close,
        Kind::SendHome => Call::SendHome,
        Kind::Settle => Call::Settle,
    }
}

/// Refuses where a room of rings of so many places answers these calls otherwise than a plain one.
fn check_sequence(
    rt: &impl Abort,
    alloc: Global,
    tools: &mut Tools,
    ring: usize,
    number: usize,
) -> Result<(), Fail> {
    let mut room = RealRoom::open(rt, alloc, ring)?;
    let mut plain = PlainRoom::new(alloc, ring);
    for (place, kind) in sequence(number).iter().chain(THEN.iter()).enumerate() {
        let call = call_of(*kind, &plain, ring as u64);
        let found = room.reply(rt, tools, call);
        let wanted = plain.reply(rt, call);
        let row = ("sequence", number, "call", place);
        same(rt, &row, &found, &wanted);
        let found = (room.keeper.is_drained(), room.keeper.byes());
        same(rt, &row, &found, &(plain.is_drained(), plain.byes()));
    }
    Ok(())
}

/// The sequence of this number.
fn sequence(number: usize) -> [Kind; 5] {
    [
        KINDS[number % 12],
        KINDS[number / 12 % 12],
        KINDS[number / 144 % 12],
        KINDS[number / 1_728 % 12],
        KINDS[number / 20_736 % 12],
    ]
}

/// Refuses where a sequence is answered otherwise by rings of so many places.
fn check_sequences(rt: &impl Abort, alloc: Global, ring: usize) -> Result<(), Fail> {
    let mut tools = make_tools(rt, alloc);
    for number in 0..248_832 {
        check_sequence(rt, alloc, &mut tools, ring, number)?;
    }
    Ok(())
}

#[test]
fn rings_of_one_place_answer_each_sequence_of_calls(rt: HostRuntime) -> Result<(), Fail> {
    check_sequences(&rt, rt.alloc(), 1)
}

#[test]
fn rings_of_two_places_answer_each_sequence_of_calls(rt: HostRuntime) -> Result<(), Fail> {
    check_sequences(&rt, rt.alloc(), 2)
}
