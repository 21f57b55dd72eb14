//! One board: what it is asked, and what it answered.
ghost use Rattle.std.specs.Prelude.{◌≡◌, ◌↔◌, IsTrue, IsOk, IfOk, None, drop, slice_get};
ghost use Rattle.refusal.specs.Numbers.{refused_with};
ghost use Rattle.sender.specs.Sending.{sending_of};
ghost use Rattle.joint.specs.Asked.{Asked};
ghost use Rattle.joint.specs.Held.{Gave, GaveAll, GaveSent, WholeIn, first_refusal};

use crate::head_end::HeadEnd;
use crate::link::Link;
use crate::script::{fetches, repairs, takes};
use anyhow::anyhow;
use history::call::{Answer, Call, Entry};
use layout::shape::Shape;
use refusal::Refusal;
use sender::Transmission;
use sender::numbering::{frames, place};
use std::alloc::Global;

/// Its link, and the calls of its receiver with their answers.
#[derive(Drop)]
pub struct Board {
    name: &'static str,
    link: Link,
    /// The frames that arrive, a repair of every block, and a fetch of every packet.
    pub entries: Vec<Entry>,
    /// How many frames arrive.
    heard: usize,
}

/// Whether an entry is a fetch that gave these words.
fn gave(entry: &Entry, block: usize, position: usize, words: &[u32]) -> bool
    ensures { IsTrue result ↔ Gave block position words.now entry.now }
{
    entry.call == (Call::Fetch { block, position })
        && entry.answer == Answer::Fetched
        && *entry.run == *words
}

/// Whether every packet that was sent was fetched, of the image and of the parity.
fn gave_all(fetches: &[Entry], sent: Transmission<'_>) -> Result<bool, Refusal>
    ensures { IfOk result (λ all. IsTrue all ↔ GaveAll (sending_of sent.entry) fetches.now) }
{
    for number in 1..frames(sent.shape) {
        let (block, position) = place(sent.shape, number)?;
        let words = sent.payload(number)?;
        let Some(entry) = fetches.get(number - 1) else {
            return Ok(false);
        };
        if !gave(entry, block, position, words) {
            return Ok(false);
        }
    }
    Ok(true)
}

impl Board {
    /// A board with all that it will be asked; it has answered nothing yet.
    pub fn new(
        heap: Global,
        name: &'static str,
        link: Link,
        head_end: &HeadEnd,
    ) -> anyhow::Result<Board>
        ensures { IfOk result (Asked head_end.now) }
    {
        let mut entries = takes(heap, head_end, &link)?;
        let heard = entries.len();
        entries.append(&mut repairs(heap, head_end.shape())?)?;
        entries.append(&mut fetches(heap, head_end.shape())?)?;
        Ok(Board {
            name,
            link,
            entries,
            heard,
        })
    }

    /// Refused with the first refusal among the answers; that of a frame which came before any shape is passed over.
    pub fn check(&self) -> Result<(), Refusal>
        ensures { refused_with result ≡ first_refusal self.now.entries.items }
    {
        for entry in &self.entries {
            match (entry.call, entry.answer) {
                (Call::Take, Answer::Refused(Refusal::NoShape)) => {}
                (_, Answer::Refused(refusal)) => return Err(refusal),
                _ => {}
            }
        }
        Ok(())
    }

    /// Fails exactly if the board was refused anything but frames that came before any shape.
    pub fn require(&self) -> anyhow::Result<()>
        ensures { IsOk result ↔ (first_refusal self.now.entries.items ≡ None) }
    {
        let name = self.name;
        match self.check() {
            Ok(()) => Ok(()),
            Err(Refusal::NoShape) => Err(anyhow!(
                "the {name} board missed every frame of the shape"
            )),
            Err(Refusal::TooFew) => Err(anyhow!(
                "the {name} board missed too many packets to restore the image"
            )),
            Err(refusal) => Err(refusal.into()),
        }
    }

    /// The repairs of all blocks and the fetches of all packets: they come behind the frames.
    fn behind_frames(&self) -> &[Entry]
        ensures { result.now ≡ drop self.now.heard self.now.entries.items }
    {
        self.entries.get(self.heard..).unwrap_or(&[])
    }

    /// How many packets the repair of a block restored.
    fn restored(&self, block: usize) -> anyhow::Result<usize>
        ensures { IfOk result (λ n. WholeIn n
            (slice_get (drop self.now.heard self.now.entries.items) block)) }
    {
        match self.behind_frames().get(block) {
            Some(
                Entry {
                    answer: Answer::Whole { restored },
                    ..
                },
            ) => Ok(*restored),
            _ => Err(anyhow!("block {block} was not repaired")),
        }
    }

    /// Tells how a block was repaired.
    pub fn tell(&self, rt: &HostRuntime, block: usize) -> anyhow::Result<()> {
        self.restored(block)?;
        let name = self.name;
        let lost = self.link.lost(rt.alloc(), block)?;
        println!(rt; "block {block}: the {name} board lost {lost:?} and restored all")?;
        Ok(())
    }

    /// The fetches of all packets.
    fn fetches(&self, blocks: usize) -> &[Entry]
        ensures { result.now ≡ drop blocks (drop self.now.heard self.now.entries.items) }
    {
        self.behind_frames().get(blocks..).unwrap_or(&[])
    }

    /// Tells how the board fared, and whether it gave what was sent.
    pub fn report(&self, rt: &HostRuntime, head_end: &HeadEnd) -> anyhow::Result<bool>
        ensures { IfOk result (λ all. IsTrue all ↔ GaveSent head_end.now self.now) }
    {
        let shape = head_end.shape();
        let mut restored: usize = 0;
        for block in 0..shape.blocks() {
            restored = restored.saturating_add(self.restored(block)?);
        }
        let holds = gave_all(self.fetches(shape.blocks()), head_end.transmission())?;
        let name = self.name;
        let verdict = if holds { "holds" } else { "does NOT hold" };
        println!(rt;
            "the {name} board restored {restored} packets and {verdict} the image that was sent"
        )?;
        Ok(holds)
    }
}
