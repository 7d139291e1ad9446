// Compares what is printed for many links with what an independent program computed: `data/README.md` says how.
#![tactic(auto)]

use anyhow::bail;
use std::alloc::{AllocError, Global};
use std::fs;
use transcript::whole::transcript;

fn agrees(heap: Global, text: &str, expected: &str) -> Result<bool, AllocError> {
    let shown = transcript(heap, text.as_bytes())?;
    Ok(shown.as_str() == expected)
}

fn run(rt: &HostRuntime) -> anyhow::Result<()> {
    let vectors = fs::read_to_string(rt, "vectors.txt")?;
    let mut text = String::new(rt.alloc());
    let mut expected = String::new(rt.alloc());
    // Counted, since a link is as many lines as it has.
    let mut links: u32 = 0;
    for line in vectors.lines() {
        if let Some(handed_in) = line.strip_prefix('<') {
            writeln!(text, "{handed_in}")?;
        } else if let Some(printed) = line.strip_prefix('>') {
            writeln!(expected, "{printed}")?;
        } else {
            if !agrees(rt.alloc(), &text, &expected)? {
                println!(rt; "link {links} differs")?;
                bail!("what is printed differs from the vectors");
            }
            links = links.saturating_add(1);
            text.clear();
            expected.clear();
        }
    }
    println!(rt; "{links} links agree")?;
    Ok(())
}

fn main(rt: HostRuntime) -> anyhow::Result<()> {
    run(&rt)
}
