//! Reads a drawing's text from standard input, does what each line says, and prints what it did.
//! With the word `people` the answers are written for people.

#![tactic(auto)]

mod pile;

use anyhow::anyhow;
use drawing::{Expected, Unreadable, read_line};
use reply::{Failure, Reply, Style};
use session::{CommandError, Session};
use std::env;
use std::io::{BufRead, BufReader, BufWriter, ErrorKind, Write};

fn main(rt: HostRuntime) -> anyhow::Result<()> {
    run(&rt)
}

// The style that the command line asks for.
fn style(rt: &HostRuntime) -> anyhow::Result<Style> {
    let mut words = env::args(rt)?;
    let _ = words.next();
    let Some(word) = words.next() else {
        return Ok(Style::Plain);
    };
    match (word.as_str().parse(), words.next()) {
        (Ok(style), None) => Ok(style),
        _ => Err(anyhow!("expected no word, or the word people")),
    }
}

fn run(rt: &HostRuntime) -> anyhow::Result<()> {
    let style = style(rt)?;
    let heap = rt.alloc();
    let mut session = Session::new(heap);
    let mut out = BufWriter::new(heap, rt.stdout())?;
    for (line, number) in BufReader::new(heap, rt.stdin())?.lines(heap).zip(1..) {
        let outcome = match line {
            Ok(line) if line.as_str().trim() == "pile" => {
                writeln!(out, "{line}")?;
                pile::show(&mut out, style, heap)?;
                continue;
            }
            Ok(line) => {
                let outcome = match read_line(line.as_str()) {
                    Ok(None) => continue,
                    Ok(Some(command)) => match session.run(heap, command) {
                        Ok(answer) => Ok(answer),
                        Err(CommandError::Refused(refusal)) => Err(Failure::Refused(refusal)),
                        Err(CommandError::OutOfMemory(error)) => return Err(error.into()),
                    },
                    Err(expected) => Err(unreadable(number, expected)),
                };
                writeln!(out, "{line}")?;
                outcome
            }
            Err(error) if error.kind() == ErrorKind::InvalidData => {
                Err(unreadable(number, Expected::Text))
            }
            Err(error) => return Err(error.into()),
        };
        writeln!(out, "{}", Reply { style, outcome })?;
    }
    out.flush()?;
    Ok(())
}

fn unreadable(line: u64, expected: Expected) -> Failure {
    Failure::Unreadable(Unreadable { line, expected })
}
