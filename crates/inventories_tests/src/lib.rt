// The records of an empty library and of libraries at the edge of a recording, and buffers too short and too long.
// The digests that are expected come from outside: SHA-256 from sha256sum, FNV-1a 64 from a few lines of Python.

#![tactic(auto)]

#[cfg(test)]
mod tests {
    use inventories::{inventory_len, write_inventory};
    use refusals::Refusal;
    use std::process::Abort;
    use std::test::Fail;

    const EMPTY: &[u8; 92] =
        b"library\t0\tcbf29ce484222325\te3b0c44298fc1c149afbf4c8996fb92427ae41e4649b934ca495991b7852b855\n";

    fn check_record(rt: &impl Abort, library: &[u8], text: &[u8]) -> Result<(), Fail> {
        assert_eq!(rt; inventory_len(library), text.len());
        let mut out = [7u8; 300];
        let length = write_inventory(library, &mut out).map_err(|_| Fail::new("refused"))?;
        assert_eq!(rt; &out[0..length], text);
        Ok(())
    }

    #[test]
    fn an_empty_library(rt: HostRuntime) -> Result<(), Fail> {
        check_record(&rt, b"", EMPTY)
    }

    // just one recording, which is the library
    #[test]
    fn one_full_recording(rt: HostRuntime) -> Result<(), Fail> {
        check_record(
            &rt,
            &[0u8; 4096],
            b"0\t4096\tb93a0c83ce3b6325\tad7facb2586fc6e966c004d7d1d16b024f5805ff7cb47c7a85dabd8b48892ca7\nlibrary\t1\tb93a0c83ce3b6325\tad7facb2586fc6e966c004d7d1d16b024f5805ff7cb47c7a85dabd8b48892ca7\n",
        )
    }

    // one byte more is a second recording
    #[test]
    fn one_byte_over(rt: HostRuntime) -> Result<(), Fail> {
        check_record(
            &rt,
            &[0u8; 4097],
            b"0\t4096\tb93a0c83ce3b6325\tad7facb2586fc6e966c004d7d1d16b024f5805ff7cb47c7a85dabd8b48892ca7\n1\t1\taf63bd4c8601b7df\t6e340b9cffb37a989ca544e6bb780a2c78901d3fb33738768511a30617afa01d\nlibrary\t2\tf90668f76ee977df\tb587fa297299ce9c602e58292b51379402bf7b1074f6b18679c2fb871c917ca8\n",
        )
    }

    #[test]
    fn one_byte_short(rt: HostRuntime) {
        let mut short = [7u8; 91];
        assert_eq!(rt;
            write_inventory(b"", &mut short),
            Err(Refusal::OutputTooShort)
        );
        assert_eq!(rt; short, [7u8; 91]);
    }

    #[test]
    fn a_longer_buffer_keeps_its_rest(rt: HostRuntime) {
        let mut long = [7u8; 94];
        assert_eq!(rt; write_inventory(b"", &mut long), Ok(92));
        assert_eq!(rt; &long[0..92], EMPTY.as_slice());
        assert_eq!(rt; &long[92..], b"\x07\x07".as_slice());
    }
}
