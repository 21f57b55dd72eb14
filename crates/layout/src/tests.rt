//! Shapes and loss lists at their bounds.
use crate::losses::LossList;
use crate::shape::{Dimensions, Shape};
use field::Arithmetic;
use field::nibble::*;
use field::octet::*;
use field::tabled::*;
use refusal::Refusal;
use std::test::Fail;

fn made<F: Arithmetic>(
    rows: usize,
    positions: usize,
    sources: usize,
    blocks: usize,
    words: usize,
) -> Result<Shape, Refusal> {
    Shape::new::<F>(Dimensions {
        rows,
        positions,
        sources,
        blocks,
        words,
    })
}

#[test]
fn shapes(rt: HostRuntime) {
    assert!(rt; made::<Nibble>(4, 15, 10, 1, 1).is_ok());
    assert!(rt; made::<Nibble>(4, 16, 10, 1, 1).err() == Some(Refusal::TooLong));
    assert!(rt; made::<TabledOctet>(8, 255, 223, 64, 16).is_ok());
    assert!(rt; made::<TabledOctet>(8, 255, 222, 1, 1).err() == Some(Refusal::BadCounts));
    assert!(rt; made::<TabledOctet>(4, 15, 10, 1, 1).err() == Some(Refusal::OtherWidth));
    assert!(rt; made::<TabledOctet>(8, usize::MAX, 0, 0, 0).err() == Some(Refusal::BadCounts));
    assert!(rt; made::<TabledOctet>(8, 20, 16, 65, 1).err() == Some(Refusal::BadSize));
    assert!(rt; made::<TabledOctet>(8, 20, 16, 1, 17).err() == Some(Refusal::BadSize));
}

#[test]
fn refused_losses(rt: HostRuntime) -> Result<(), Fail> {
    let shape = made::<Nibble>(4, 3, 1, 1, 1)?;
    assert!(rt; LossList::new(&shape, &[0, 1, 2]).err() == Some(Refusal::TooFew));
    assert!(rt; LossList::new(&shape, &[0, 3]).err() == Some(Refusal::BadLosses));
    assert!(rt; LossList::new(&shape, &[0, 1, 2, 2]).err() == Some(Refusal::BadLosses));
    assert!(rt; LossList::new(&shape, &[1, 0]).err() == Some(Refusal::BadLosses));
    Ok(())
}
