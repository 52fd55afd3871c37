// Drives tables of tag records over each store: answers lines that make a table and ask of it, one answer to a line.
#![tactic(auto)]

mod answers;
mod lines;
mod makes;
mod spaces;

use answers::decline_lines;
use lines::Line;
use makes::Run;
use std::alloc::Global;
use std::io;
use std::io::{BufRead, BufReader, BufWriter, Write};

fn main(rt: HostRuntime) -> io::Result<()> {
    let heap = rt.alloc();
    let mut lines = Vec::new(heap);
    for line in BufReader::new(heap, rt.stdin())?.split(heap, b'\n') {
        lines.push(Line::read(heap, &line?)?)?;
    }
    let mut out = BufWriter::new(heap, rt.stdout())?;
    answer_all(heap, &mut out, &lines)?;
    out.flush()
}

// Before the first make there is no table. Each make has the lines up to the next one.
fn answer_all<W: Write>(heap: Global, out: &mut W, lines: &[Line]) -> io::Result<()> {
    decline_lines(out, until_make(lines))?;
    for (at, line) in lines.iter().enumerate() {
        if let Line::Make(asked) = *line {
            let mut run = Run {
                heap,
                out,
                asked,
                lines: until_make(&lines[at + 1..]),
            };
            run.answer()?;
        }
    }
    Ok(())
}

// The lines before the first make.
fn until_make(lines: &[Line]) -> &[Line] {
    let end = lines.iter().position(|line| matches!(line, Line::Make(_)));
    &lines[..end.unwrap_or(lines.len())]
}
