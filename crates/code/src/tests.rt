//! The block calls on the known block.
use crate::block;
use crate::block::{encode, repair};
use field::nibble::*;
use field::octet::*;
use field::tabled::*;
use layout::losses::LossList;
use layout::shape::{Dimensions, Shape};
use refusal::Refusal;
use std::test::Fail;

// Position 0, position 1 and the source packet.
const CODEWORD: [u32; 12] = [8, 9, 2, 4, 9, 0xB, 6, 0xC, 1, 2, 4, 8];

fn small() -> Result<Shape, Refusal> {
    Shape::new::<Nibble>(Dimensions {
        rows: 4,
        positions: 3,
        sources: 1,
        blocks: 1,
        words: 1,
    })
}

#[test]
fn encodes(rt: HostRuntime) -> Result<(), Fail> {
    let shape = small()?;
    let mut parity = [7; 8];
    encode::<Nibble>(&shape, &CODEWORD[8..12], &mut parity)?;
    assert!(rt; parity[..] == CODEWORD[0..8]);
    Ok(())
}

#[test]
fn checks(rt: HostRuntime) -> Result<(), Fail> {
    let shape = small()?;
    let mut work = [7; 12];
    assert!(rt; check_block(&shape, &CODEWORD, &mut work)?);
    assert!(rt; work == [0; 12]);
    let mut other = CODEWORD;
    other[11] = 9;
    assert!(rt; !check_block(&shape, &other, &mut work)?);
    Ok(())
}

fn check_block(shape: &Shape, block: &[u32], work: &mut [u32]) -> Result<bool, Refusal> {
    block::check::<Nibble>(shape, block, work)
}

// Positions 0 and 2 lost come back, whatever stands there.
#[test]
fn repairs(rt: HostRuntime) -> Result<(), Fail> {
    let shape = small()?;
    let mut block = CODEWORD;
    block[0] = 5;
    block[2] = 0xFFFF_FFFF;
    block[9] = 0;
    let mut work = [7; 12];
    repair::<Nibble>(
        &shape,
        &mut block,
        &LossList::new(&shape, &[0, 2])?,
        &mut work,
    )?;
    assert!(rt; block == CODEWORD);
    assert!(rt; work == [0; 12]);
    Ok(())
}

#[test]
fn contradictory(rt: HostRuntime) -> Result<(), Fail> {
    let shape = small()?;
    let mut block = CODEWORD;
    block[4] = 8;
    let changed = block;
    let mut work = [7; 12];
    let none = LossList::none();
    assert!(rt;
        repair::<Nibble>(&shape, &mut block, &none, &mut work)
            == Err(Refusal::Contradictory { sum: 0, word: 0 })
    );
    let first = LossList::new(&shape, &[0])?;
    assert!(rt;
        repair::<Nibble>(&shape, &mut block, &first, &mut work)
            == Err(Refusal::Contradictory { sum: 1, word: 0 })
    );
    assert!(rt; block == changed);
    assert!(rt; work == [0; 12]);
    Ok(())
}

#[test]
fn refused_runs(rt: HostRuntime) -> Result<(), Fail> {
    let shape = small()?;
    let none = LossList::none();
    let mut block = CODEWORD;
    let mut short = [7; 8];
    let mut work = [7; 12];
    assert!(rt;
        repair::<TabledOctet>(&shape, &mut block, &none, &mut work) == Err(Refusal::OtherWidth)
    );
    assert!(rt;
        repair::<Nibble>(&shape, &mut short, &none, &mut work)
            == Err(Refusal::WrongRun { place: 0 })
    );
    assert!(rt;
        repair::<Nibble>(&shape, &mut block, &none, &mut short)
            == Err(Refusal::WrongRun { place: 1 })
    );
    assert!(rt; short == [7; 8]);
    assert!(rt; work == [7; 12]);
    Ok(())
}
