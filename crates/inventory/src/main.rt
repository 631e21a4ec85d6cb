// Prints the record of the library in `library.bin`.

#![tactic(auto)]

ghost use Rattle.std.specs.Prelude.{◌≡◌, IfOk};
ghost use Rattle.inventories.specs.Texts.{inventory_text};

use inventories::{inventory_len, write_inventory};
use std::alloc::{AllocError, Global};
use std::io::ErrorKind;
use std::{fs, io};

// A missing library counts as an empty one.
fn read_library(rt: &HostRuntime) -> io::Result<Vec<u8>> {
    match fs::read(rt, "library.bin") {
        Err(e) if e.kind() == ErrorKind::NotFound => Ok(Vec::new(rt.alloc())),
        read => read,
    }
}

// The buffer has just the length of the record, so that it is never too short.
fn record(heap: Global, library: &[u8]) -> Result<Vec<u8>, AllocError>
    ensures { IfOk result (λ text. text.items ≡ inventory_text library.now) }
{
    let mut text = vec![in heap; 0u8; inventory_len(library)]?;
    write_inventory(library, text.as_mut_slice()).unwrap();
    Ok(text)
}

fn run(rt: &HostRuntime) -> anyhow::Result<()> {
    let library = read_library(rt)?;
    let text = record(rt.alloc(), library.as_slice())?;
    rt.write_all(text.as_slice())?;
    Ok(())
}

fn main(rt: HostRuntime) -> anyhow::Result<()> {
    run(&rt)
}

#[cfg(test)]
mod tests {
    use super::*;
    use std::test::Fail;

    // Tests are run in a folder that has no library.
    #[test]
    fn a_missing_library_counts_as_empty(rt: HostRuntime) -> Result<(), Fail> {
        assert!(rt; read_library(&rt)?.len() == 0);
        Ok(())
    }
}
