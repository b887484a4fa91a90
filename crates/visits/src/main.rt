// A visit that is put back, and one that is settled before the next is taken: how a program has to end its visits.
// The programs in tests/refused are this one with a line less or more, which the compiler refuses.
#![tactic(auto)]

use checker::{CallRefusal, Checker};
use recorder::Recorder;
use sha256::Sha256;

// An image of one file with an empty text.
const IMAGE: [u8; 69] =
    *b"\x01\x00\x01\x00\x00\x00\x31\x00\x14\x00\x00\x00\x45\x00\x00\x00\x00\x00\x00\x00/nix/store/00000000000000000000000000000000-a.drv";

// Takes a file and puts it back.
fn put_next_back(checker: &mut Checker<'_>) -> Result<(), CallRefusal> {
    let visit = checker.take()?;
    match checker.put_back(visit) {
        Ok(()) => Ok(()),
        // Not reached: the file is taken.
        Err(_) => unreachable!(),
    }
}

// Takes a file and settles it, and answers how many bytes are digested.
fn settle_next(
    checker: &mut Checker<'_>,
    digest: &mut Recorder<Sha256>,
) -> Result<u64, CallRefusal> {
    let visit = checker.take()?;
    match checker.settle(visit, digest) {
        Ok(count) => Ok(count),
        // Not reached: the file is taken.
        Err(_) => unreachable!(),
    }
}

// The number of a refusal, or 0.
fn number<T: Drop>(answer: Result<T, CallRefusal>) -> u8 {
    match answer {
        Ok(_) => 0,
        Err(refusal) => refusal.number(),
    }
}

fn main(rt: HostRuntime) -> anyhow::Result<()> {
    let mut checker = Checker::new();
    let mut digest = Recorder::new(Sha256::new());
    println!(rt; "{}", number(put_next_back(&mut checker)))?;
    let opened = checker.open(&IMAGE).is_ok();
    println!(rt; "{opened}")?;
    println!(rt; "{}", number(put_next_back(&mut checker)))?;
    println!(rt; "{}", number(settle_next(&mut checker, &mut digest)))?;
    println!(rt; "{}", number(settle_next(&mut checker, &mut digest)))?;
    Ok(())
}
