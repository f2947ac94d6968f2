//! Says of paths whether rules of `.gitignore` files leave them out: a line `+LINE` adds a line of rules, `?PATH` asks of a path, which
//! is a folder where a slash ends it, and an empty line begins anew. It prints `out` or `kept` for each path.
#![tactic(auto)]

use anyhow::Result;
use run_ignore::Rules;

/// Whether the rules of a text leave a path out.
fn is_out(rt: &HostRuntime, text: &str, path: &str) -> Result<bool> {
    let rules = Rules::parse(rt.alloc(), text.as_bytes())?;
    let answer = match path.strip_suffix('/') {
        Some(folder) => rules.leaves_out(rt.alloc(), folder.as_bytes(), true)?,
        None => rules.leaves_out(rt.alloc(), path.as_bytes(), false)?,
    };
    Ok(answer)
}

/// Does what a line says.
fn take(rt: &HostRuntime, text: &mut String, line: &str) -> Result<()> {
    if line.is_empty() {
        text.clear();
    }
    if let Some(rule) = line.strip_prefix('+') {
        text.push_str(rule)?;
        text.push('\n')?;
    }
    if let Some(path) = line.strip_prefix('?') {
        let word = if is_out(rt, text.as_str(), path)? {
            "out"
        } else {
            "kept"
        };
        println!(rt; "{word}")?;
    }
    Ok(())
}

fn main(rt: HostRuntime) -> Result<()> {
    let mut text = String::new(rt.alloc());
    for line in rt.lines(rt.alloc()) {
        take(&rt, &mut text, line?.as_str())?;
    }
    Ok(())
}
