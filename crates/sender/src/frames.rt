//! The frames of a transmission.
ghost use Rattle.std.specs.Prelude.{◌≡◌, length, IfOk};
ghost use Rattle.refusal.specs.Numbers.{refused_with};
ghost use Rattle.layout.specs.Sizes.{packet_of};
ghost use Rattle.frame.specs.Frames.{content_of};
ghost use Rattle.sender.specs.Numbering.{InsideShape};
ghost use Rattle.sender.specs.Sending.{sending_of};
ghost use Rattle.sender.specs.Sent.{AllPackets, packet_at, payload_of, payload_refusal, sent, sent_refusal, frame_refusal, after_frame, Received};

use crate::Transmission;
use crate::numbering::place;
use frame::Frame;
use refusal::Refusal;

impl<'a> Transmission<'a> {
    // The packet at a position of a block: a part of the parity words, or of the image.
    fn packet(&self, block: usize, position: usize) -> &'a [u32]
        requires packets { AllPackets (sending_of self.now) }
        requires inside { InsideShape self.now.shape.now (block, position) }
        ensures value { result.now ≡ packet_at (sending_of self.now) block position }
        ensures length { length result.now ≡ packet_of self.now.shape.now }
    {
        let parity = self.shape.parity();
        let size = self.shape.packet();
        if position < parity {
            let at = block * parity + position;
            &self.parity[at * size..at * size + size]
        } else {
            let at = block * self.shape.sources() + (position - parity);
            &self.image[at * size..at * size + size]
        }
    }

    /// The words that a packet frame carries behind its header: a part of the parity words or of the image.
    ///
    /// Refused as `OutsideShape` for a frame that carries no packet, which frame 0 does not, then as `WrongRun`, at place 0
    /// for the image and 1 for the parity words.
    pub fn payload(&self, frame: usize) -> Result<&'a [u32], Refusal>
        ensures answer { refused_with result ≡ payload_refusal (sending_of self.now) frame }
        ensures value { IfOk result (λ run. run.now ≡ payload_of (sending_of self.now) frame) }
    {
        let (block, position) = place(self.shape, frame)?;
        self.check_runs()?;
        Ok(self.packet(block, position))
    }

    // The frame of a number: the shape is number 0.
    fn numbered(&self, frame: usize) -> Result<Frame<'a>, Refusal>
        ensures answer { refused_with result ≡ sent_refusal (sending_of self.now) frame }
        ensures value { IfOk result (λ f. content_of f ≡ sent (sending_of self.now) frame) }
    {
        if frame == 0 {
            self.check_runs()?;
            return Ok(Frame::Shape(self.shape.dimensions()));
        }
        let (block, position) = place(self.shape, frame)?;
        self.check_runs()?;
        Ok(Frame::Packet {
            block,
            position,
            payload: self.packet(block, position),
        })
    }

    /// Fills a run of the frame's length with the words of the frame: 2 for frame 0, and for any other one more than a packet
    /// has.
    ///
    /// Refused as `OutsideShape` above the last frame, then as `WrongRun`, at place 0 for the image, 1 for the parity words and
    /// 2 for the run, which stays as it was.
    pub fn frame(&self, run: &mut [u32], frame: usize) -> Result<(), Refusal>
        ensures answer { refused_with result ≡ frame_refusal (sending_of self.now) run.old frame }
        ensures after { run.new ≡ after_frame result (sending_of self.now) run.old frame }
        ensures back { Received result (sending_of self.now) frame run.new }
    {
        let frame = self.numbered(frame)?;
        if run.len() != frame.length() {
            return Err(Refusal::WrongRun { place: 2 });
        }
        frame.write(run)
    }
}
