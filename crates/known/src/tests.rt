//! The same values, as the calls give them when they run.
use crate::answers::{
    contradicted, contradicted_behind, encoded, known_losses, known_shape, repaired,
};
use crate::known_block;
use code::block::{check, repair};
use field::Arithmetic;
use field::nibble::*;
use field::octet::*;
use field::power::raise;
use field::stepped::*;
use field::tabled::*;
use frame::Frame;
use layout::losses::LossList;
use layout::shape::{Dimensions, Shape};
use refusal::Refusal;
use std::test::Fail;
use store::SlotStore;
use store::memory::MemoryStore;
use store::slots::Format;

fn one_block(rows: usize, positions: usize, sources: usize) -> Dimensions {
    Dimensions {
        rows,
        positions,
        sources,
        blocks: 1,
        words: 1,
    }
}

#[test]
fn arithmetic(rt: HostRuntime) {
    assert_eq!(rt; raise::<Nibble>(2, 4), 3);
    assert_eq!(rt; raise::<Nibble>(2, 7), 11);
    assert_eq!(rt; Nibble::inverse(2), 9);
    assert_eq!(rt; raise::<TabledOctet>(2, 8), 0x1D);
    assert_eq!(rt; raise::<TabledOctet>(2, 9), 0x3A);
    assert_eq!(rt; raise::<SteppedOctet>(2, 8), 0x1D);
    assert_eq!(rt; raise::<SteppedOctet>(2, 9), 0x3A);
}

#[test]
fn parity(rt: HostRuntime) -> Result<(), Fail> {
    assert!(rt; encoded()?[..] == known_block()[..8]);
    let mut work = [7; 12];
    assert!(rt; check::<Nibble>(&known_shape()?, &known_block(), &mut work)?);
    Ok(())
}

#[test]
fn losses(rt: HostRuntime) -> Result<(), Fail> {
    assert!(rt; repaired()? == known_block());
    assert!(rt; known_losses(&[0, 1, 2]).err() == Some(Refusal::TooFew));
    let longer = Shape::new::<Nibble>(one_block(4, 5, 2))?;
    let three = LossList::new(&longer, &[0, 1, 2])?;
    let mut block = known_block();
    assert!(rt;
        repair::<Nibble>(&known_shape()?, &mut block, &three, &mut [0; 12]) == Err(Refusal::TooFew)
    );
    Ok(())
}

#[test]
fn contradictions(rt: HostRuntime) {
    let mut work = [7; 12];
    assert!(rt; contradicted(&mut work) == Err(Refusal::Contradictory { sum: 0, word: 0 }));
    assert!(rt; contradicted_behind(&mut work) == Err(Refusal::Contradictory { sum: 1, word: 0 }));
}

#[test]
fn frames(rt: HostRuntime) {
    let shape: Frame<'static> = Frame::Shape(one_block(4, 3, 1));
    let mut run = [0; 2];
    assert_eq!(rt; shape.write(&mut run), Ok(()));
    assert!(rt; run == [0x14003001, 0x20010001]);
    assert_eq!(rt; Frame::try_from(&run[..]), Ok(shape));
    let packet: Frame<'static> = Frame::Packet {
        block: 0,
        position: 2,
        payload: &[1, 2, 4, 8],
    };
    let mut run = [0; 5];
    assert_eq!(rt; packet.write(&mut run), Ok(()));
    assert!(rt; run == [0x30000002, 1, 2, 4, 8]);
    assert_eq!(rt; Frame::try_from(&run[..]), Ok(packet));
}

#[test]
fn slots(rt: HostRuntime) {
    let format = Format {
        rows: 1,
        columns: 3,
        size: 4,
    };
    let mut words = [7; 15];
    assert_eq!(rt; MemoryStore::new(&mut words).format(format), Ok(()));
    assert_eq!(rt;
        MemoryStore::new(&mut words[..14]).format(format),
        Err(Refusal::BadFormat)
    );
}

#[test]
fn shapes(rt: HostRuntime) {
    assert!(rt; Shape::new::<Nibble>(one_block(4, 15, 10)).is_ok());
    assert!(rt; Shape::new::<Nibble>(one_block(4, 16, 10)).err() == Some(Refusal::TooLong));
    assert!(rt; Shape::new::<TabledOctet>(one_block(8, 255, 223)).is_ok());
    assert!(rt;
        Shape::new::<TabledOctet>(one_block(8, 255, 222)).err() == Some(Refusal::BadCounts)
    );
}
