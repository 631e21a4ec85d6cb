// Lines that are wrong in each way, pieces that end where they like, a file with all kinds of lines, and buffers too short.

#![tactic(auto)]

#[cfg(test)]
mod tests {
    use refusals::Refusal;
    use sha256::running::Sha256;
    use std::alloc::Global;
    use std::test::Fail;
    use texts::hex::decode_hex;
    use texts::reader::Reader;
    use vector_files::check::{check as check_vector, digest_in_pieces};
    use vector_files::entry::next_entry;
    use vector_files::read::read_vector;
    use vector_files::record::{Record, examine};
    use vector_files::tally::Tally;
    use vector_files::vector::Fault;

    fn fault_of(line: &[u8]) -> Option<Fault> {
        read_vector(line).err()
    }

    #[test]
    fn fields_before_the_message(rt: HostRuntime) {
        assert_eq!(rt; fault_of(b"a\tfnv1a64\ttext\t\tcbf29ce484222325"), None);
        assert_eq!(rt;
            fault_of(b"a\tfnv1a64\ttext\tcbf29ce484222325"),
            Some(Fault::FieldCount)
        );
        assert_eq!(rt;
            fault_of(b"a\tfnv1a64\ttext\t\t\tcbf29ce484222325"),
            Some(Fault::FieldCount)
        );
        assert_eq!(rt;
            fault_of(b"\tfnv1a64\ttext\t\tcbf29ce484222325"),
            Some(Fault::Name)
        );
        assert_eq!(rt;
            fault_of(b"\xe9\tfnv1a64\ttext\t\tcbf29ce484222325"),
            Some(Fault::Name)
        );
        assert_eq!(rt;
            fault_of(b"a\tfnv1a\ttext\t\tcbf29ce484222325"),
            Some(Fault::Hash)
        );
        assert_eq!(rt;
            fault_of(b"a\tfnv1a64\ttext \t\tcbf29ce484222325"),
            Some(Fault::Form)
        );
    }

    #[test]
    fn messages_and_digests(rt: HostRuntime) {
        assert_eq!(rt;
            fault_of(b"a\tfnv1a64\thex\t6A\tcbf29ce484222325"),
            Some(Fault::Message)
        );
        assert_eq!(rt;
            fault_of(b"a\tfnv1a64\thex\t61a\tcbf29ce484222325"),
            Some(Fault::Message)
        );
        assert_eq!(rt;
            fault_of(b"a\tfnv1a64\trepeat\t61*01\tcbf29ce484222325"),
            Some(Fault::Message)
        );
        assert_eq!(rt;
            fault_of(b"a\tfnv1a64\trepeat\t61*10000000\tcbf29ce484222325"),
            Some(Fault::Message)
        );
        assert_eq!(rt;
            fault_of(b"a\tfnv1a64\trepeat\t61*9999999\tcbf29ce484222325"),
            None
        );
        assert_eq!(rt;
            fault_of(b"a\tfnv1a64\ttext\t\tcbf29ce4842223"),
            Some(Fault::Digest)
        );
        assert_eq!(rt;
            fault_of(b"a\tsha256\ttext\t\tcbf29ce484222325"),
            Some(Fault::Digest)
        );
    }

    // A hundred times `a`; the digest is what sha256sum says.
    #[test]
    fn uneven_pieces(rt: HostRuntime) {
        let digest = digest_in_pieces::<Sha256>(&[b'a'; 100]);
        let text = b"2816597888e4a0d3a36b82b83316ab32680eb8f00f8cd3b904d681246d285a0e";
        let mut expected = [0u8; 32];
        assert_eq!(rt; decode_hex(text, &mut expected), Some(32));
        assert_eq!(rt; digest.as_bytes(), expected.as_slice());
    }

    #[test]
    fn one_byte_too_long(rt: HostRuntime) -> Result<(), Fail> {
        let vector = read_vector(b"a\tfnv1a64\trepeat\t61*3\tcbf29ce484222325").map_err(
            |_| Fail::new("not read"),
        )?;
        let mut buffer = [0u8; 2];
        assert_eq!(rt;
            check_vector(vector, &mut buffer).err(),
            Some(Fault::TooLong)
        );
        Ok(())
    }

    fn add_record(text: &mut Vec<u8>, record: Record) -> Result<(), Fail> {
        let mut line = [0u8; 64];
        let length = record.write(&mut line).map_err(|_| Fail::new("refused"))?;
        text.extend_from_slice(&line[..length])?;
        Ok(())
    }

    // What is printed of a file of at most nine entries; the `for` bounds the loop, so that it is seen to end.
    fn printed(heap: Global, file: &[u8], buffer: &mut [u8]) -> Result<Vec<u8>, Fail> {
        let mut reader = Reader::over(file);
        let mut tally = Tally::new();
        let mut text = Vec::new(heap);
        for _ in 0..9 {
            if let Some(entry) = next_entry(&mut reader) {
                let record = examine(entry, buffer);
                tally.count(record.finding);
                add_record(&mut text, record)?;
            }
        }
        let mut line = [0u8; 64];
        let length = tally.write(&mut line).map_err(|_| Fail::new("refused"))?;
        text.extend_from_slice(&line[..length])?;
        Ok(text)
    }

    // A remark, an empty line, a vector that agrees, one that differs, a malformed line, and a last line without its
    // line feed.
    #[test]
    fn a_file(rt: HostRuntime) -> Result<(), Fail> {
        let file =
            b"# remark\n\nfoo\tfnv1a64\thex\t666f6f\tdcb27518fed9d577\nb\tfnv1a64\ttext\tb\tcbf29ce484222325\nc\n# end";
        let text = printed(rt.alloc(), file, &mut [0u8; 8])?;
        assert_eq!(rt;
            text.as_slice(),
            b"foo\t3\tdcb27518fed9d577\tok\nb\t1\taf63df4c8601f1a5\tdiffers\nline\t5\tmalformed\tnot five fields\nline\t6\tmalformed\tno line feed at its end\nvectors\t4\tok\t1\tdiffer\t1\tmalformed\t2\n".as_slice()
        );
        Ok(())
    }

    // The line of an empty tally has 36 bytes.
    #[test]
    fn one_byte_short(rt: HostRuntime) {
        let mut short = [7u8; 35];
        assert_eq!(rt;
            Tally::new().write(&mut short),
            Err(Refusal::OutputTooShort)
        );
        assert_eq!(rt; short, [7u8; 35]);
        let mut long = [7u8; 37];
        assert_eq!(rt; Tally::new().write(&mut long), Ok(36));
        assert_eq!(rt; &long, b"vectors\t0\tok\t0\tdiffer\t0\tmalformed\t0\n\x07");
    }
}
