//! Runs of words.
ghost use Rattle.layout.specs.Blocks.{ZeroRun};

/// Fills a run with zeros.
pub fn clear(run: &mut [u32])
    ensures { ZeroRun run.new }
{
    run.fill(0);
}
