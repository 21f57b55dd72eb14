//! Frames there and back, and words that are none.
use crate::*;
use layout::shape::Dimensions;

fn refused(words: &[u32]) -> bool {
    Frame::try_from(words) == Err(Refusal::BadFrame)
}

#[test]
fn a_shape_frame_there_and_back(rt: HostRuntime) {
    let frame: Frame<'static> = Frame::Shape(Dimensions {
        rows: 4,
        positions: 3,
        sources: 1,
        blocks: 1,
        words: 1,
    });
    let mut run = [0; 2];
    assert_eq!(rt; frame.length(), 2);
    assert_eq!(rt; frame.write(&mut run), Ok(()));
    assert!(rt; run == [0x14003001, 0x20010001]);
    assert_eq!(rt; Frame::try_from(&run[..]), Ok(frame));
}

#[test]
fn a_packet_frame_there_and_back(rt: HostRuntime) {
    let frame = Frame::Packet {
        block: 0,
        position: 2,
        payload: &[7, 8],
    };
    let mut run = [0; 3];
    assert_eq!(rt; frame.length(), 3);
    assert_eq!(rt; frame.write(&mut run), Ok(()));
    assert!(rt; run == [0x30000002, 7, 8]);
    assert_eq!(rt; Frame::try_from(&run[..]), Ok(frame));
}

#[test]
fn damaged_words_are_no_frame(rt: HostRuntime) {
    assert!(rt; refused(&[]));
    assert!(rt; refused(&[0x04003001, 0x20010001]), "kind 0");
    assert!(rt; refused(&[0x24003001, 0x20010001]), "kind 2 first");
    assert!(rt; refused(&[0x40000002]), "kind 4");
    assert!(rt;
        refused(&[0x14003001, 0x10010001]),
        "the second word of kind 1"
    );
    assert!(rt;
        refused(&[0x14003001, 0x20010101]),
        "an unused bit of the second word"
    );
    assert!(rt; refused(&[0x14003001]), "a shape frame of one word");
    assert!(rt;
        refused(&[0x14003001, 0x20010001, 0]),
        "a shape frame of three words"
    );
    assert!(rt;
        refused(&[0x31000002]),
        "an unused bit of a packet's header"
    );
}

#[test]
fn what_cannot_be_written_leaves_the_run(rt: HostRuntime) {
    let mut run = [5, 6];
    let large = Frame::Packet {
        block: 0,
        position: 4096,
        payload: &[7],
    };
    assert_eq!(rt; large.write(&mut run), Err(Refusal::BadFrame));
    let short = Frame::Packet {
        block: 0,
        position: 4095,
        payload: &[],
    };
    assert_eq!(rt; short.write(&mut run), Err(Refusal::WrongRun { place: 0 }));
    assert!(rt; run == [5, 6]);
}
