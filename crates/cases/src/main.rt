// Answers each record file that is named on the command line, under the file's name.
#![tactic(auto)]

use record::LONGEST;
use std::fs::File;
use std::io::Read;
use std::path::Path;
use std::{env, io};

// The bytes of a file: one more than a record may have is enough to see that it has too many.
fn contents(rt: &HostRuntime, path: &str) -> io::Result<Vec<u8>> {
    let mut bytes = Vec::new(rt.alloc());
    let file = File::open(rt, path)?;
    file.take(LONGEST as u64 + 1).read_to_end(&mut bytes)?;
    Ok(bytes)
}

fn main(rt: HostRuntime) -> io::Result<()> {
    for path in env::args(&rt)?.skip(1) {
        let bytes = contents(&rt, &path)?;
        let answer = answers::answer(rt.alloc(), &bytes)?;
        let name = Path::new(&path).file_stem().unwrap_or(&path);
        print!(rt; "{name}\n{answer}")?;
    }
    Ok(())
}
