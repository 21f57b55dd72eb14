//! A transmission of one or two blocks of nibbles, short enough to write out.
use crate::Transmission;
use crate::broadcast::{frame_of, turns};
use crate::numbering::place;
use crate::prepare::prepare;
use field::nibble::*;
use field::octet::*;
use layout::shape::{Dimensions, Shape};
use refusal::Refusal;
use std::test::Fail;

// Blocks of three packets of four words, one of them source, over the field of 16 elements.
fn shape(blocks: usize) -> Result<Shape, Refusal> {
    Shape::new::<Nibble>(Dimensions {
        rows: 4,
        positions: 3,
        sources: 1,
        blocks,
        words: 1,
    })
}

const IMAGE: [u32; 8] = [1, 2, 4, 8, 0, 0, 0, 0];

const PARITY: [u32; 16] = [8, 9, 2, 4, 9, 0xB, 6, 0xC, 0, 0, 0, 0, 0, 0, 0, 0];

#[test]
fn prepares(rt: HostRuntime) -> Result<(), Fail> {
    let shape = shape(2)?;
    let mut parity = [5; 16];
    assert_eq!(rt;
        prepare::<TabledOctet>(&shape, &IMAGE, &mut parity),
        Err(Refusal::OtherWidth)
    );
    assert_eq!(rt;
        prepare::<Nibble>(&shape, &IMAGE[..7], &mut parity),
        Err(Refusal::WrongRun { place: 0 })
    );
    assert_eq!(rt;
        prepare::<Nibble>(&shape, &IMAGE, &mut parity[..15]),
        Err(Refusal::WrongRun { place: 1 })
    );
    assert!(rt; parity == [5; 16]);
    assert_eq!(rt; prepare::<Nibble>(&shape, &IMAGE, &mut parity), Ok(()));
    assert!(rt; parity == PARITY);
    Ok(())
}

#[test]
fn numbers(rt: HostRuntime) -> Result<(), Fail> {
    let shape = shape(2)?;
    assert_eq!(rt; place(&shape, 0), Err(Refusal::OutsideShape));
    assert_eq!(rt; place(&shape, 1), Ok((0, 0)));
    assert_eq!(rt; place(&shape, 2), Ok((1, 0)));
    assert_eq!(rt; place(&shape, 3), Ok((0, 1)));
    assert_eq!(rt; place(&shape, 6), Ok((1, 2)));
    assert_eq!(rt; place(&shape, 7), Err(Refusal::OutsideShape));
    assert_eq!(rt; place(&shape, usize::MAX), Err(Refusal::OutsideShape));
    Ok(())
}

// The shape's frame goes out first and behind the fiftieth and the hundredth packet.
#[test]
fn broadcasts(rt: HostRuntime) -> Result<(), Fail> {
    let few = shape(16)?;
    assert_eq!(rt; turns(&few), 49);
    assert_eq!(rt; frame_of(&few, 48), Ok(48));
    assert_eq!(rt; frame_of(&few, 49), Err(Refusal::OutsideShape));
    let many = Shape::new::<Nibble>(Dimensions {
        positions: 10,
        blocks: 10,
        ..few.dimensions()
    })?;
    assert_eq!(rt; turns(&many), 103);
    let order = [
        (0, 0),
        (1, 1),
        (50, 50),
        (51, 0),
        (52, 51),
        (101, 100),
        (102, 0),
    ];
    for (turn, frame) in order {
        assert_eq!(rt; frame_of(&many, turn), Ok(frame));
    }
    assert_eq!(rt; frame_of(&many, 103), Err(Refusal::OutsideShape));
    assert_eq!(rt; frame_of(&many, usize::MAX), Err(Refusal::OutsideShape));
    Ok(())
}

#[test]
fn payloads(rt: HostRuntime) -> Result<(), Fail> {
    let shape = shape(2)?;
    let sent = Transmission {
        shape: &shape,
        image: &IMAGE,
        parity: &PARITY,
    };
    assert!(rt; sent.payload(0) == Err(Refusal::OutsideShape));
    assert!(rt; sent.payload(3)? == [9, 0xB, 6, 0xC].as_slice());
    assert!(rt; sent.payload(5)? == [1, 2, 4, 8].as_slice());
    assert!(rt; sent.payload(6)? == [0; 4].as_slice());
    let short = Transmission {
        parity: &PARITY[1..],
        ..sent
    };
    assert!(rt; short.payload(7) == Err(Refusal::OutsideShape));
    assert!(rt; short.payload(5) == Err(Refusal::WrongRun { place: 1 }));
    Ok(())
}

#[test]
fn frames(rt: HostRuntime) -> Result<(), Fail> {
    let shape = shape(1)?;
    let sent = Transmission {
        shape: &shape,
        image: &IMAGE[..4],
        parity: &PARITY[..8],
    };
    let mut run = [5; 5];
    assert_eq!(rt; sent.frame(&mut run, 4), Err(Refusal::OutsideShape));
    assert_eq!(rt;
        sent.frame(&mut run, 0),
        Err(Refusal::WrongRun { place: 2 })
    );
    assert!(rt; run == [5; 5]);
    assert_eq!(rt; sent.frame(&mut run, 3), Ok(()));
    assert!(rt; run == [0x30000002, 1, 2, 4, 8]);
    assert_eq!(rt; sent.frame(&mut run[..2], 0), Ok(()));
    assert!(rt; run[..2] == [0x14003001, 0x20010001]);
    let short = Transmission {
        image: &IMAGE[..3],
        ..sent
    };
    assert_eq!(rt;
        short.frame(&mut run[..2], 0),
        Err(Refusal::WrongRun { place: 0 })
    );
    Ok(())
}
