// The records of a file one by one, and the lengths of their lines. What is expected is counted off docs/FORMATS.md.

#![tactic(auto)]

#[cfg(test)]
mod tests {
    use refusals::Refusal;
    use texts::reader::Reader;
    use vector_files::tally::Tally;
    use vector_reports::line::ReportLine;
    use vector_reports::record::next_record;

    // A remark, a vector that agrees, and a last line without its line feed.
    #[test]
    fn records_one_by_one(rt: HostRuntime) {
        let file = b"# remark\nfoo\tfnv1a64\thex\t666f6f\tdcb27518fed9d577\nc";
        let mut reader = Reader::over(file);
        let mut messages = [7u8; 4];
        let first = next_record(&mut reader, &mut messages);
        assert!(rt; messages == [b'f', b'o', b'o', 7]);
        let second = next_record(&mut reader, &mut messages);
        let none = next_record(&mut reader, &mut messages);
        assert!(rt; first.is_some_and(|record| record.line == 2 && record.name == "foo"));
        assert!(rt; second.is_some_and(|record| record.line == 3 && record.name == ""));
        assert!(rt; none.is_none());
    }

    // foo, 3, a digest of 16 digits and ok, with three tabs and the line feed.
    #[test]
    fn the_line_of_a_record(rt: HostRuntime) {
        let file = b"foo\tfnv1a64\thex\t666f6f\tdcb27518fed9d577\n";
        let mut line = [7u8; 27];
        if let Some(record) = next_record(&mut Reader::over(file), &mut [0u8; 3]) {
            assert_eq!(rt; record.line_len(), Some(26));
            assert_eq!(rt; record.write_line(&mut line), Ok(26));
        }
        assert!(rt; line.as_slice() == b"foo\t3\tdcb27518fed9d577\tok\n\x07".as_slice());
    }

    // The line of an empty tally has 36 bytes.
    #[test]
    fn the_line_of_a_tally(rt: HostRuntime) {
        assert_eq!(rt; Tally::new().line_len(), Some(36));
        let mut short = [7u8; 35];
        assert_eq!(rt;
            Tally::new().write_line(&mut short),
            Err(Refusal::OutputTooShort)
        );
        assert_eq!(rt; short, [7u8; 35]);
    }
}
