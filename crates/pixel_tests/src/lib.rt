// What the pixel formats do on examples.
#![tactic(auto)]

#[cfg(test)]
mod tests {
    use pixel::Format;

    #[test]
    fn descriptions(rt: HostRuntime) {
        let native = [8, 8, 0, 1, 0, 7, 0, 7, 0, 3, 0, 3, 6, 0, 0, 0];
        let little = [32, 24, 0, 1, 0, 255, 0, 255, 0, 255, 16, 8, 0, 0, 0, 0];
        let big = [32, 24, 1, 1, 0, 255, 0, 255, 0, 255, 16, 8, 0, 0, 0, 0];
        assert_eq!(rt; Format::Native.describe(), native);
        assert_eq!(rt; Format::Little.describe(), little);
        assert_eq!(rt; Format::Big.describe(), big);
    }

    #[test]
    fn flags_and_padding(rt: HostRuntime) {
        let big = [32, 0, 9, 200, 0, 255, 0, 255, 0, 255, 16, 8, 0, 1, 2, 3];
        let native = [8, 5, 77, 2, 0, 7, 0, 7, 0, 3, 0, 3, 6, 9, 9, 9];
        let indexed = [8, 8, 0, 0, 0, 7, 0, 7, 0, 3, 0, 3, 6, 0, 0, 0];
        assert_eq!(rt; Format::parse(&big), Some(Format::Big));
        assert_eq!(rt; Format::parse(&native), Some(Format::Native));
        assert_eq!(rt;
            Format::parse(&indexed),
            None,
            "a true-colour flag of 0 is refused"
        );
        assert_eq!(rt; Format::parse(&big[0..15]), None);
    }

    #[test]
    fn unused_byte(rt: HostRuntime) {
        let mut out = [1, 2, 3, 4, 5];
        assert_eq!(rt; Format::Little.write(0xAB6D2400, &mut out), Some(4));
        assert_eq!(rt; out, [0, 0x24, 0x6D, 0, 5]);
        assert_eq!(rt; Format::Big.read(&[0xAB, 0x6D, 0x24, 0]), Some(0x6D2400));
    }

    #[test]
    fn short_memory(rt: HostRuntime) {
        let mut out = [1, 2, 3];
        assert_eq!(rt; Format::Big.write(0x6D2400, &mut out), None);
        assert_eq!(rt; out, [1, 2, 3]);
        assert_eq!(rt; Format::Little.read(&out), None);
    }
}
