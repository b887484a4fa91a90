// The example messages of FIPS 180-4, and the bound on the length of a message.
#![tactic(auto)]

#[cfg(test)]
mod tests {
    use sha256::Sha256;
    use sink::{DigestSink, Full, Sink, digest_of};
    use std::test::Fail;

    #[test]
    fn empty(rt: HostRuntime) -> Result<(), Fail> {
        let told =
            *b"\xe3\xb0\xc4\x42\x98\xfc\x1c\x14\x9a\xfb\xf4\xc8\x99\x6f\xb9\x24\x27\xae\x41\xe4\x64\x9b\x93\x4c\xa4\x95\x99\x1b\x78\x52\xb8\x55";
        let mut hasher = Sha256::new();
        assert_eq!(rt; hasher.answer(), told);
        assert_eq!(rt; digest_of(&mut hasher, b"")?, told);
        Ok(())
    }

    #[test]
    fn abc(rt: HostRuntime) -> Result<(), Fail> {
        let told =
            *b"\xba\x78\x16\xbf\x8f\x01\xcf\xea\x41\x41\x40\xde\x5d\xae\x22\x23\xb0\x03\x61\xa3\x96\x17\x7a\x9c\xb4\x10\xff\x61\xf2\x00\x15\xad";
        let mut hasher = Sha256::new();
        assert_eq!(rt; digest_of(&mut hasher, b"abc")?, told);
        Ok(())
    }

    #[test]
    fn two_blocks(rt: HostRuntime) -> Result<(), Fail> {
        let told =
            *b"\x24\x8d\x6a\x61\xd2\x06\x38\xb8\xe5\xc0\x26\x93\x0c\x3e\x60\x39\xa3\x3c\xe4\x59\x64\xff\x21\x67\xf6\xec\xed\xd4\x19\xdb\x06\xc1";
        let mut hasher = Sha256::new();
        let message = b"abcdbcdecdefdefgefghfghighijhijkijkljklmklmnlmnomnopnopq";
        assert_eq!(rt; digest_of(&mut hasher, message)?, told);
        Ok(())
    }

    #[test]
    fn million(rt: HostRuntime) -> Result<(), Fail> {
        let told =
            *b"\xcd\xc7\x6e\x5c\x99\x14\xfb\x92\x81\xa1\xc7\xe2\x84\xd7\x3e\x67\xf1\x80\x9a\x48\xa4\x97\x20\x0e\x04\x6d\x39\xcc\xc7\x11\x2c\xd0";
        let piece = [b'a'; 1000];
        let mut hasher = Sha256::new();
        hasher.write(b"forgotten")?;
        hasher.begin();
        for _ in 0..1000u32 {
            hasher.write(&piece)?;
        }
        assert_eq!(rt; hasher.answer(), told);
        Ok(())
    }

    // 16,777,216 zeros are taken, and one byte more is not.
    #[test]
    fn too_long(rt: HostRuntime) -> Result<(), Fail> {
        let told =
            *b"\x08\x0a\xcf\x35\xa5\x07\xac\x98\x49\xcf\xcb\xa4\x7d\xc2\xad\x83\xe0\x1b\x75\x66\x3a\x51\x62\x79\xc8\xb9\xd2\x43\xb7\x19\x64\x3e";
        let piece = [0u8; 65536];
        let mut hasher = Sha256::new();
        for _ in 0..256u32 {
            hasher.write(&piece)?;
        }
        assert_eq!(rt; hasher.answer(), told);
        assert_eq!(rt; hasher.write(b"x"), Err(Full));
        assert_eq!(rt; hasher.answer(), told);
        Ok(())
    }
}
