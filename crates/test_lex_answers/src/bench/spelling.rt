//! So many spellings of a kind, through a block to standard output: `strings` (plain ones), `escaped` (strings with
//! escapes), `names`, `ascii` (names with escapes), `numbers` (minified), `formatted` (numbers as they were read).

mod kinds;

use base_token::Counted;
use kinds::fill;
use print_blocks::gather::Gather;

/// Writes the spellings of a kind.
pub fn run(rt: &HostRuntime, kind: &str, count: u32) -> anyhow::Result<()> {
    let mut block = Gather::new(Counted::new(rt.stdout()));
    fill(rt.alloc(), &mut block, kind, count)?;
    block.finish()?;
    Ok(())
}
