//! The cases by name.
mod blocks;
mod fields;
mod frames;
mod stores;
mod transmissions;

use crate::words::{Error, Words};
use std::alloc::Global;

/// Reads the arguments of a case, makes its call, and writes what it gives.
pub fn result(heap: Global, name: &str, arguments: &str) -> Result<String, Error> {
    let words = Words::new(heap, arguments);
    match name {
        "width" => fields::width(words),
        "product" => fields::product(words),
        "inverse" => fields::inverse(words),
        "shape" => blocks::shape(words),
        "losses" => blocks::losses(words),
        "encode" => blocks::encode(words),
        "check" => blocks::check(words),
        "repair" => blocks::repair(words),
        "absorb" => blocks::absorb(words),
        "rebuild" => blocks::rebuild(words),
        "store" => stores::store(heap, arguments),
        "read" => frames::read(words),
        "write-shape" => frames::write_shape(words),
        "write-packet" => frames::write_packet(words),
        "prepare" => transmissions::prepare(words),
        "numbering" => transmissions::numbering(words),
        "turns" => transmissions::turns(words),
        "turn" => transmissions::turn(words),
        "payload" => transmissions::payload(words),
        "frame" => transmissions::frame(words),
        _ => Err(Error::NoName),
    }
}
