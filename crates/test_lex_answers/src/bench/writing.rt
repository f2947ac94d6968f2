//! A writer over a block over standard output that is given so many short texts, or marks, of a kind: `names` (between
//! commas), `strings`, `line` (one line of names and blanks, without an end), `lines` (a name a line, 255 levels deep),
//! `marks` (names with positions, whose marks are kept), `semicolons` (that wait). Positions are marked at one place for
//! `places` (each greater than the last), `falling` (each smaller) and `scattered` (in no order).

mod kinds;

use base_token::Counted;
use kinds::fill;
use print_writers::{Gather, JsWriter, omit_trailing_semi};

/// Writes the texts of a kind.
pub fn run(rt: &HostRuntime, kind: &str, count: u32) -> anyhow::Result<()> {
    let alloc = rt.alloc();
    let mut block = Gather::new(Counted::new(rt.stdout()));
    let mut marks = Vec::new(alloc);
    match kind {
        "marks" | "places" | "falling" | "scattered" => {
            let mut writer = JsWriter::new(alloc, "\n", &mut block, Some(&mut marks));
            fill(&mut writer, kind, count)?;
        }
        "semicolons" => {
            let mut writer = omit_trailing_semi(JsWriter::new(alloc, "\n", &mut block, None));
            fill(&mut writer, kind, count)?;
        }
        _ => {
            let mut writer = JsWriter::new(alloc, "\n", &mut block, None);
            fill(&mut writer, kind, count)?;
        }
    }
    block.finish()?;
    Ok(())
}
