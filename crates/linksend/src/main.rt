// Shows what a truck puts on air: reads a link's text from standard input, and prints the plan and every block with its frame.
#![tactic(auto)]

use std::io::Read;
use transcript::whole::transcript;

fn run(rt: &HostRuntime) -> anyhow::Result<()> {
    let mut text = Vec::new(rt.alloc());
    rt.stdin().read_to_end(&mut text)?;
    let shown = transcript(rt.alloc(), text.as_slice())?;
    rt.print(shown)?;
    Ok(())
}

fn main(rt: HostRuntime) -> anyhow::Result<()> {
    run(&rt)
}
