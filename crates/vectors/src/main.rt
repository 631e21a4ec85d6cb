// Checks the test vectors of `vectors.txt`, prints the report on them, and fails where one is not ok.

#![tactic(auto)]

ghost use Rattle.std.specs.Prelude.{◌≡◌, ◌++◌, IfOk, MatchResult};
ghost use Rattle.vector_reports.specs.Reports.{AllOk, FileReport};

use anyhow::anyhow;
use std::alloc::{AllocError, Global};
use std::fs;
use texts::reader::Reader;
use vector_files::tally::Tally;
use vector_reports::line::ReportLine;
use vector_reports::record::next_record;

// How long a message may be.
const MESSAGE_ROOM: usize = 1_048_576;

// Puts a line behind the text, which grows by just its length, so that there is never too little room; a line whose length
// 64 bits do not hold asks for more memory than there can be.
fn add_line<L: ReportLine>(text: &mut Vec<u8>, line: &L) -> Result<(), AllocError>
    ensures { IfOk result (λ _. text.new.items ≡ text.old.items ++ L.text line.now) }
{
    let start = text.len();
    let length = line.line_len().unwrap_or(usize::MAX);
    text.resize(start.saturating_add(length), 0)?;
    line.write_line(&mut text[start..]).unwrap();
    Ok(())
}

// The report on a file of vectors, and its tally.
fn report(heap: Global, file: &[u8]) -> Result<(Vec<u8>, Tally), AllocError>
    ensures { IfOk result (λ made. FileReport 1048576 file.now made.0.items made.1) }
{
    let mut messages = vec![in heap; 0u8; MESSAGE_ROOM]?;
    let mut text = Vec::new(heap);
    let mut tally = Tally::new();
    let mut reader = Reader::over(file);
    while let Some(record) = next_record(&mut reader, messages.as_mut_slice()) {
        tally.count(record.finding);
        add_line(&mut text, &record)?;
    }
    add_line(&mut text, &tally)?;
    Ok((text, tally))
}

// An error exactly when a vector differs or is malformed.
fn ending(tally: &Tally) -> anyhow::Result<()>
    ensures { MatchResult result (λ _. (tally.now.differ ≡ 0) × (tally.now.malformed ≡ 0)) (λ _. (tally.now.differ ≡ 0) × (tally.now.malformed ≡ 0) → ⊥) }
{
    if tally.all_ok() {
        Ok(())
    } else {
        Err(anyhow!("a vector differs or is malformed"))
    }
}

// Prints the report on a file. Where all is well, each of its vectors is ok.
fn print_report(rt: &HostRuntime, file: &[u8]) -> anyhow::Result<()>
    ensures { IfOk result (λ _. AllOk 1048576 file.now) }
{
    let (text, tally) = report(rt.alloc(), file)?;
    rt.write_all(text.as_slice())?;
    ending(&tally)
}

fn run(rt: &HostRuntime) -> anyhow::Result<()> {
    let file = fs::read(rt, "vectors.txt")?;
    print_report(rt, file.as_slice())
}

fn main(rt: HostRuntime) -> anyhow::Result<()> {
    run(&rt)
}

#[cfg(test)]
mod tests {
    use super::*;
    use std::test::Fail;

    // The digests are the published ones of `a` and of the empty string.
    #[test]
    fn a_vector_that_differs_is_an_error(rt: HostRuntime) -> Result<(), Fail> {
        let file =
            b"a\tfnv1a64\ttext\ta\taf63dc4c8601ec8c\nb\tfnv1a64\ttext\ta\tcbf29ce484222325\n";
        let made = report(rt.alloc(), file)?;
        assert!(rt;
            made.0.as_slice()
                == b"a\t1\taf63dc4c8601ec8c\tok\nb\t1\taf63dc4c8601ec8c\tdiffers\nvectors\t2\tok\t1\tdiffer\t1\tmalformed\t0\n".as_slice()
        );
        assert!(rt; ending(&made.1).is_err());
        Ok(())
    }

    #[test]
    fn no_vector_is_no_error(rt: HostRuntime) -> Result<(), Fail> {
        let made = report(rt.alloc(), b"# remark\n\n")?;
        assert!(rt;
            made.0.as_slice() == b"vectors\t0\tok\t0\tdiffer\t0\tmalformed\t0\n".as_slice()
        );
        assert!(rt; ending(&made.1).is_ok());
        Ok(())
    }
}
