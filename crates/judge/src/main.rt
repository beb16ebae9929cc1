// Judges the record on standard input, and prints the answer.
#![tactic(auto)]

use answers::answer;
use record::LONGEST;
use std::io::Read;

// One byte more than a record may have is enough to see that it has too many.
fn run(rt: &HostRuntime) -> anyhow::Result<()> {
    let mut bytes = Vec::new(rt.alloc());
    rt.stdin().take(LONGEST as u64 + 1).read_to_end(&mut bytes)?;
    let answer = answer(rt.alloc(), &bytes)?;
    print!(rt; "{answer}")?;
    Ok(())
}

fn main(rt: HostRuntime) -> anyhow::Result<()> {
    run(&rt)
}
