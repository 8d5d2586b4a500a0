//! Worked steps of the card reader and its channel.

ghost use Rattle.std.specs.Prelude.{All, IfOk};
ghost use Rattle.pp_machine.specs.ReaderNumbers.{IsCard};

use crate::parts::channel;
use pp_machine::ChannelState::{Empty, Full, Function, Inactive};
use pp_machine::ReaderMode::{Idle, Reading, Sent, Status};
use pp_machine::ReaderRecord::{
    CardEnded, ColumnSent, Nothing, Skipped, Started, StatusCalled, StatusEnded, StatusSent,
};
use pp_machine::{Channel, ChannelState, MakeFault, Reader, ReaderMode, ReaderRecord, Unaligned16};
use std::alloc::{AllocError, Global};
use std::process::Abort;
use std::test::Fail;

/// Returns a card that begins with the columns 1, 2, 3.
fn card() -> [u16; 80]
    ensures { IsCard result }
{
    let mut card = [0; 80];
    card[0] = 1;
    card[1] = 2;
    card[2] = 3;
    card
}

/// Returns a deck with this many copies of the card.
fn deck_of(alloc: Global, cards: u16) -> Result<Vec<[u16; 80]>, AllocError>
    ensures { IfOk result (λ deck. All IsCard deck.items) }
{
    let mut deck = Vec::new(alloc);
    for _card in 0..cards {
        deck.push(card())?;
    }
    Ok(deck)
}

fn one_card(alloc: Global) -> Result<Reader, Fail> {
    Ok(Reader::new(deck_of(alloc, 1)?)?)
}

/// Returns the reader's card, column and mode.
fn numbers(reader: &Reader) -> (u32, u32, ReaderMode) {
    (reader.card(), reader.column(), reader.mode())
}

/// A step: the channel before it, the undo record, and afterwards the channel, and the reader's card, column and mode.
type Step = (
    (ChannelState, u16),
    ReaderRecord,
    (ChannelState, u16),
    (u32, u32, ReaderMode),
);

/// Makes a step and undoes it. Returns whether the record is the expected one, and all is as before.
fn is_undone(reader: &mut Reader, line: &mut Channel, record: ReaderRecord) -> bool {
    let (before, earlier) = (*line, numbers(reader));
    let back = reader.step(line);
    reader.undo(back, line);
    back == record && *line == before && numbers(reader) == earlier
}

/// Makes a step, undoes it and makes it again. Returns whether its row is right.
fn is_right(reader: &mut Reader, step: &Step) -> bool {
    let ((state, word), record, after, left) = *step;
    let mut line = channel(state, word & 0o7777);
    let is_undone = is_undone(reader, &mut line, record);
    let is_made = reader.step(&mut line) == record && (line.state, line.word) == after;
    is_undone && is_made && numbers(reader) == left
}

/// Makes the steps of a reader with this many cards.
fn follow(rt: &impl Abort, reader: &mut Reader, cards: u32, steps: &[Step]) {
    assert!(rt; reader.cards() == cards);
    for i in 0..steps.len() {
        assert!(rt; is_right(reader, &steps[i]), "row {i}");
    }
}

fn one_card_skipped() -> [Step; 4] {
    [
        (
            (Function, 1),
            Started { mode: Idle },
            (Inactive, 1),
            (0, 0, Reading),
        ),
        (
            (Empty, 1),
            ColumnSent {
                word: Unaligned16::new(1),
                column: 0,
            },
            (Full, 1),
            (0, 1, Reading),
        ),
        ((Full, 1), Nothing, (Full, 1), (0, 1, Reading)),
        (
            (Function, 1),
            Skipped {
                card: Unaligned16::new(0),
                column: 1,
                mode: Reading,
            },
            (Inactive, 1),
            (1, 0, Idle),
        ),
    ]
}

#[test]
fn reads_one_card(rt: HostRuntime) -> Result<(), Fail> {
    let mut reader = one_card(rt.alloc())?;
    follow(&rt, &mut reader, 1, &one_card_skipped());
    drop(reader);
    Ok(())
}

fn no_card() -> [Step; 3] {
    [
        (
            (Function, 2),
            StatusCalled { mode: Idle },
            (Inactive, 2),
            (0, 0, Status),
        ),
        (
            (Empty, 2),
            StatusSent {
                word: Unaligned16::new(2),
            },
            (Full, 1),
            (0, 0, Sent),
        ),
        ((Empty, 1), StatusEnded, (Inactive, 1), (0, 0, Idle)),
    ]
}

#[test]
fn tells_that_no_card_is_left(rt: HostRuntime) -> Result<(), Fail> {
    let mut reader = Reader::new(deck_of(rt.alloc(), 0)?)?;
    follow(&rt, &mut reader, 0, &no_card());
    drop(reader);
    Ok(())
}

/// Reads the columns of a card. Returns whether each one comes.
fn reads_columns(reader: &mut Reader) -> bool {
    let _ = reader.step(&mut channel(Function, 1));
    for _column in 0..80 {
        let mut line = channel(Empty, 0);
        let _ = reader.step(&mut line);
        if line.state != Full {
            return false;
        }
    }
    reader.column() == 80
}

fn card_ends() -> [Step; 1] {
    [(
        (Empty, 0),
        CardEnded {
            card: Unaligned16::new(0),
        },
        (Inactive, 0),
        (1, 0, Idle),
    )]
}

#[test]
fn ends_a_card_after_its_last_column(rt: HostRuntime) -> Result<(), Fail> {
    let mut reader = one_card(rt.alloc())?;
    assert!(rt; reads_columns(&mut reader));
    follow(&rt, &mut reader, 1, &card_ends());
    drop(reader);
    Ok(())
}

fn other_function() -> [Step; 1] {
    [((Function, 4), Nothing, (Function, 4), (0, 0, Idle))]
}

#[test]
fn leaves_other_functions_alone(rt: HostRuntime) -> Result<(), Fail> {
    let mut reader = one_card(rt.alloc())?;
    follow(&rt, &mut reader, 1, &other_function());
    drop(reader);
    Ok(())
}

/// Returns why no reader is made with so many cards, or `None` if one is made.
fn fault_of(alloc: Global, cards: u16) -> Result<Option<MakeFault>, Fail> {
    Ok(Reader::new(deck_of(alloc, cards)?).err())
}

#[test]
fn refuses_a_deck_over_2000_cards(rt: HostRuntime) -> Result<(), Fail> {
    for (cards, fault) in [
        (0, None),
        (2000, None),
        (2001, Some(MakeFault::DeckTooLong)),
    ] {
        assert!(rt; fault_of(rt.alloc(), cards)? == fault, "{cards} cards");
    }
    Ok(())
}

/// Checks that a record is small enough to be passed by value.
#[test]
fn record_takes_few_bytes(rt: HostRuntime) {
    assert!(rt; size_of::<ReaderRecord>() <= 5);
}
