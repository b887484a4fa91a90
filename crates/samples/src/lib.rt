// Worked examples of the definitions, and what the tests of other crates want.
#![tactic(auto)]

ghost use Rattle.samples.specs.Samples.{Samples};

mod zeros;

pub use zeros::Zeros;

// Every example of the table holds.
pub fn samples_hold() -> bool
    ensures { Samples }
{
    true
}

#[cfg(test)]
mod tests {
    use super::*;
    use recorder::Recorder;
    use sink::{DigestSink, Sink};
    use std::test::Fail;
    use store_path::{base32, fold, take_apart};

    #[test]
    fn paths(rt: HostRuntime) -> Result<(), Fail> {
        let mut bytes = [0u8; 20];
        assert_eq!(rt; base32(&bytes), *b"00000000000000000000000000000000");
        bytes[0] = 1;
        assert_eq!(rt; base32(&bytes), *b"00000000000000000000000000000001");
        bytes = [0; 20];
        bytes[19] = 128;
        assert_eq!(rt; base32(&bytes), *b"h0000000000000000000000000000000");
        assert_eq!(rt; base32(&[255; 20]), *b"zzzzzzzzzzzzzzzzzzzzzzzzzzzzzzzz");
        assert_eq!(rt;
            fold(&[1; 32]),
            [0, 0, 0, 0, 0, 0, 0, 0, 0, 0, 0, 0, 1, 1, 1, 1, 1, 1, 1, 1]
        );
        assert!(rt; take_apart(b"/nix/store/c0.drv").is_none());
        let Some(parts) = take_apart(b"/nix/store/x54ai3hgyr1iajmyk1rpzdq339r0lxr2-c0.drv") else {
            return Err(Fail::new("no store path"));
        };
        assert!(rt; parts.digits == b"x54ai3hgyr1iajmyk1rpzdq339r0lxr2".as_slice());
        assert!(rt; parts.name == b"c0.drv".as_slice());
        Ok(())
    }

    #[test]
    fn records(rt: HostRuntime) -> Result<(), Fail> {
        let mut r = Recorder::new(Zeros::new());
        r.begin();
        r.write(b"ab")?;
        r.write(b"c")?;
        assert_eq!(rt; r.answer(), [0; 32]);
        let mut out = [9u8; 5];
        assert_eq!(rt; r.kept(&mut out)?, 3);
        assert_eq!(rt; out, [97, 98, 99, 9, 9]);
        let mut short = [9u8; 2];
        assert!(rt; r.kept(&mut short).is_err());
        assert_eq!(rt; short, [9, 9]);
        r.begin();
        assert_eq!(rt; r.kept(&mut out)?, 0);
        Ok(())
    }
}
