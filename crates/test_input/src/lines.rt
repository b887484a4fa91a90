// The lines of a program's input.
ghost use Rattle.std.specs.Prelude.{OnOk, IfSome};
ghost use Rattle.test_input.specs.Lines.{LinesTaken};

use std::alloc::Global;
use std::io;
use std::io::{BufRead, BufReader, Read};

// Takes a step at each line that a reader gives, until one fails.
// What the reader gives is known of one over memory, and of none that asks the system.
pub fn each_line<R: Read + Drop, E: From<io::Error>, F: FnMut(&str) -> Result<(), E>>(
    heap: Global,
    from: R,
    mut step: F,
) -> Result<(), E>
    requires { F.IsAlwaysCallable step }
    ensures { OnOk result (IfSome (R.remaining from) (λ text. LinesTaken F.FnMut step text)) }
{
    for line in BufReader::new(heap, from)?.lines(heap) {
        step(line?.as_str())?;
    }
    Ok(())
}

#[cfg(test)]
mod tests {
    use super::*;
    use std::test::Fail;

    #[test]
    fn each_line_is_taken_in_order(rt: HostRuntime) -> Result<(), Fail> {
        let mut taken = String::new(rt.alloc());
        each_line(
            rt.alloc(),
            b"one\r\n\ntwo".as_slice(),
            |line| -> io::Result<()> {
                taken.push_str(line)?;
                taken.push('|')?;
                Ok(())
            },
        )?;
        assert_eq!(rt; taken.as_str(), "one||two|");
        Ok(())
    }
}
