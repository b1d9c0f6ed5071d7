// Examples of what the console reads and writes.
#![tactic(auto)]

#[cfg(test)]
mod tests {
    use command::{Change, Command, Kind, Name, Operation, RegionCommand, parse, parse_region};
    use notation::{hex, parse_hex, parse_number};
    use screen::Rect;
    use std::alloc::{AllocError, Global};
    use std::test::Fail;

    fn understood(heap: Global, text: &[u8]) -> Result<bool, AllocError> {
        Ok(parse(heap, text)?.is_some())
    }

    fn comes_back(heap: Global, bytes: &[u8]) -> Result<bool, AllocError> {
        let text = hex(heap, bytes)?;
        match parse_hex(heap, text.as_bytes())? {
            Some(back) => Ok(back.as_slice() == bytes),
            None => Ok(false),
        }
    }

    // What is done to region `b`, where the text is a command on it.
    fn change_of_b(text: &[u8]) -> Option<Change> {
        match parse_region(text) {
            Some(
                RegionCommand {
                    name: Name::B,
                    change,
                },
            ) => Some(change),
            _ => None,
        }
    }

    #[test]
    fn bytes_round(rt: HostRuntime) -> Result<(), Fail> {
        let heap = rt.alloc();
        assert_eq!(rt; hex(heap, b"")?.as_str(), "-");
        assert_eq!(rt; hex(heap, b"\x00\x9a\xFF")?.as_str(), "009AFF");
        assert!(rt; comes_back(heap, b"")?);
        assert!(rt; comes_back(heap, b"\x00\x0f\xA0\xff")?);
        let many = vec![in heap; 0xA5u8; 100000]?;
        assert!(rt; comes_back(heap, many.as_slice())?);
        Ok(())
    }

    #[test]
    fn numbers(rt: HostRuntime) {
        assert_eq!(rt; parse_number(b"0"), Some(0));
        assert_eq!(rt; parse_number(b"65536"), Some(65536));
        assert_eq!(rt; parse_number(b"18446744073709551615"), Some(usize::MAX));
        assert_eq!(rt;
            parse_number(b"123456789012345678901234567890"),
            Some(usize::MAX)
        );
        assert_eq!(rt; parse_number(b""), None);
        assert_eq!(rt; parse_number(b"00"), None);
        assert_eq!(rt; parse_number(b"+1"), None);
    }

    #[test]
    fn commands(rt: HostRuntime) -> Result<(), Fail> {
        let heap = rt.alloc();
        assert!(rt;
            matches!(
                parse(heap, b"line batch 12")?,
                Some(Command::Line(Kind::Batch, 12))
            )
        );
        assert!(rt; matches!(parse(heap, b"read 65536")?, Some(Command::Read(65536))));
        assert!(rt; understood(heap, b"write 00FF")?);
        assert!(rt; understood(heap, b"carry -")?);
        assert!(rt; understood(heap, b"flush")?);
        assert!(rt; understood(heap, b"queue")?);
        Ok(())
    }

    #[test]
    fn refusals(rt: HostRuntime) -> Result<(), Fail> {
        let heap = rt.alloc();
        assert!(rt; !understood(heap, b"read 65537")?);
        assert!(rt; !understood(heap, b"write ff")?);
        assert!(rt; !understood(heap, b"write ABC")?);
        assert!(rt; !understood(heap, b"write  AB")?);
        assert!(rt; !understood(heap, b"flush ")?);
        assert!(rt; !understood(heap, b"line heap 1")?);
        assert!(rt; !understood(heap, b"\xff")?);
        Ok(())
    }

    #[test]
    fn regions(rt: HostRuntime) {
        assert!(rt; matches!(change_of_b(b"region b empty"), Some(Change::Empty)));
        assert!(rt;
            matches!(
                change_of_b(b"region b cut 0 1 20 65535"),
                Some(Change::ByRect(
                    Operation::Cut,
                    Rect {
                        x: 0,
                        y: 1,
                        w: 20,
                        h: 65535
                    }
                ))
            )
        );
        assert!(rt;
            matches!(
                change_of_b(b"region b away a"),
                Some(Change::ByRegion(Operation::Away, Name::A))
            )
        );
        assert!(rt; parse_region(b"region a join a").is_some());
    }

    #[test]
    fn region_refusals(rt: HostRuntime) {
        assert!(rt; parse_region(b"region c empty").is_none());
        assert!(rt; parse_region(b"region a join 0 0 1 65536").is_none());
        assert!(rt; parse_region(b"region a join 0 0 01 1").is_none());
        assert!(rt; parse_region(b"region a join 0 0 1").is_none());
        assert!(rt; parse_region(b"region a join 0 0 1 1 1").is_none());
        assert!(rt; parse_region(b"region a join 0  0 1 1").is_none());
        assert!(rt; parse_region(b"region a join").is_none());
    }
}
