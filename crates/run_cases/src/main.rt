// Lists of calls, one list a line: a name, the digest (`sha256` or `zeros`), how many answers there is room for, the length of the buffer, an
// image in base 16, and the calls with a comma between two. Of each is written whether the image opened, each answer, how many calls were
// made, the buffer, and, of the string that the sink was given last, how many bytes the recorder kept and its digest.
// The cases stand in stdin, what is expected in stdout.
#![tactic(auto)]

use anyhow::anyhow;
use checker::{Answer, Call, CallRefusal, Offer, Ran, Window, run};
use derivation::Told;
use recorder::Recorder;
use samples::Zeros;
use sha256::Sha256;
use sink::DigestSink;
use std::alloc::Global;
use std::fmt::Display;
use test_input::{Hex, decode, each_line};
use verdict::Fault;

// What a buffer is filled with before the first call.
const FILL: u8 = 0xee;

// As much as the recorder keeps.
const KEPT: usize = 4096;

fn window(from: &str, size: &str) -> anyhow::Result<Window> {
    Ok(Window {
        from: from.parse()?,
        size: size.parse()?,
    })
}

// A call with its arguments, which have a colon before each; a settle or a put back without one offers the file that was taken last.
fn call_of(parts: &[&str]) -> anyhow::Result<Call> {
    match *parts {
        ["take"] => Ok(Call::Take),
        ["settle"] => Ok(Call::Settle(Offer::LastTaken)),
        ["settle", file] => Ok(Call::Settle(Offer::File(file.parse()?))),
        ["put_back"] => Ok(Call::PutBack(Offer::LastTaken)),
        ["put_back", file] => Ok(Call::PutBack(Offer::File(file.parse()?))),
        ["verdict", file] => Ok(Call::Verdict(file.parse()?)),
        ["path", file, j, from, size] => {
            Ok(Call::Path(file.parse()?, j.parse()?, window(from, size)?))
        }
        ["rewrite", file, from, size] => Ok(Call::Rewrite(file.parse()?, window(from, size)?)),
        ["circle"] => Ok(Call::Circle),
        ["line", file, from, size] => Ok(Call::Line(file.parse()?, window(from, size)?)),
        ["tail", from, size] => Ok(Call::Tail(window(from, size)?)),
        _ => Err(anyhow!("no such call")),
    }
}

fn calls_of(heap: Global, words: &str) -> anyhow::Result<Vec<Call>> {
    let mut calls = Vec::new(heap);
    for word in words.split(',') {
        let parts: Vec<&str> = word.split(':').collect(heap)?;
        calls.push(call_of(&parts)?)?;
    }
    Ok(calls)
}

// An answer that is one number, or the number of a refusal.
fn show_number<N: Display + Drop>(
    rt: &HostRuntime,
    call: &str,
    answer: Result<N, CallRefusal>,
) -> anyhow::Result<()> {
    match answer {
        Ok(n) => println!(rt; "{call} {n}")?,
        Err(refusal) => println!(rt; "{call} refused {}", refusal.number())?,
    }
    Ok(())
}

fn show_verdict(
    rt: &HostRuntime,
    answer: Result<Option<Result<(), Fault>>, CallRefusal>,
) -> anyhow::Result<()> {
    match answer {
        Ok(Some(verdict)) => println!(rt; "verdict {}", Told::from(verdict))?,
        Ok(None) => println!(rt; "verdict pending")?,
        Err(refusal) => println!(rt; "verdict refused {}", refusal.number())?,
    }
    Ok(())
}

// There is none where a call was not made.
fn show_answer(rt: &HostRuntime, answer: Option<Answer>) -> anyhow::Result<()> {
    match answer {
        None => {
            println!(rt; "none")?;
            Ok(())
        }
        Some(Answer::Taken(answer)) => show_number(rt, "take", answer),
        Some(Answer::Settled(answer)) => show_number(rt, "settle", answer),
        Some(Answer::PutBack(answer)) => show_number(rt, "put_back", answer.map(|()| 0)),
        Some(Answer::Verdict(answer)) => show_verdict(rt, answer),
        Some(Answer::Written(answer)) => show_number(rt, "written", answer),
        Some(Answer::Circle(answer)) => show_number(rt, "circle", answer),
    }
}

// What is run, but for the digest.
#[derive(Drop)]
struct Case {
    room: usize,
    size: usize,
    image: Vec<u8>,
    calls: Vec<Call>,
}

impl Case {
    fn show<D: DigestSink + Drop>(&self, rt: &HostRuntime, below: D) -> anyhow::Result<()> {
        let mut sink = Recorder::new(below);
        let mut buffer = vec![in rt.alloc(); FILL; self.size]?;
        let mut answers = vec![in rt.alloc(); None; self.room]?;
        let Ran { opened, count } = run(
            &self.image,
            &mut sink,
            &mut buffer,
            &self.calls,
            &mut answers,
        );
        match opened {
            Ok(()) => println!(rt; "opened")?,
            Err(refusal) => println!(rt; "refused {} {}", refusal.number(), refusal.slot())?,
        }
        for answer in &answers {
            show_answer(rt, *answer)?;
        }
        println!(rt; "calls {count}")?;
        println!(rt; "buffer {}", Hex(&buffer))?;
        let mut kept = vec![in rt.alloc(); 0u8; KEPT]?;
        let kept = sink
            .kept(&mut kept)
            .map_err(|_| anyhow!("the recorder kept more than that"))?;
        println!(rt; "sink {kept} {}", Hex(&sink.answer()))?;
        Ok(())
    }
}

fn show(rt: &HostRuntime, line: &str) -> anyhow::Result<()> {
    let heap = rt.alloc();
    let words: Vec<&str> = line.split(' ').collect(heap)?;
    let [name, digest, room, size, image, calls] = *words else {
        return Err(anyhow!("a line has six words"));
    };
    let case = Case {
        room: room.parse()?,
        size: size.parse()?,
        image: decode(heap, image.as_bytes())?,
        calls: calls_of(heap, calls)?,
    };
    println!(rt; "{name}")?;
    match digest {
        "sha256" => case.show(rt, Sha256::new()),
        "zeros" => case.show(rt, Zeros::new()),
        _ => Err(anyhow!("no such digest")),
    }
}

fn main(rt: HostRuntime) -> anyhow::Result<()> {
    each_line(rt.alloc(), rt.stdin(), |line| show(&rt, line))
}
