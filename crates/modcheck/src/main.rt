// Reads a module from standard input and prints what its trailer says, what check answers of it, and what is found of the keys that
// are given as arguments.
#![tactic(auto)]

use modules::calls::{check, find};
use modules::module::Module;
use octets::kinds::Coded;
use records::declines::Decline;
use records::kind::RecordKind;
use records::kinds::Record;
use records::plates::Plate;
use records::records::{TagRecord, TareRecord};
use std::io::Read;
use std::{env, io};
use trailers::layouts::Layout;

// The most bytes that a module may have. One more is read, so that a longer module is seen to be too long.
const LONGEST: u64 = 2_147_483_648;

// A record kind whose keys are typed, and whose records are printed as two numbers.
trait Printed: Coded {
    fn typed(text: &str) -> Result<Self::Key, Decline>;

    fn printed(self) -> (u32, u32);
}

impl Printed for TareRecord {
    fn typed(text: &str) -> Result<Plate, Decline> {
        Plate::from_text(text.as_bytes())
    }

    fn printed(self) -> (u32, u32) {
        (self.tare, u32::from(self.day))
    }
}

impl Printed for TagRecord {
    // 1 to 16 hexadecimal digits
    fn typed(text: &str) -> Result<u64, Decline> {
        if text.len() > 16 || !text.bytes().all(|digit| digit.is_ascii_hexdigit()) {
            return Err(Decline::UnreadableLine);
        }
        u64::from_str_radix(text, 16).map_err(|_| Decline::UnreadableLine)
    }

    fn printed(self) -> (u32, u32) {
        (self.grower, u32::from(self.grain))
    }
}

fn main(rt: HostRuntime) -> io::Result<()> {
    let mut bytes = Vec::new(rt.alloc());
    rt.stdin().take(LONGEST + 1).read_to_end(&mut bytes)?;
    let kind = print_module(&rt, &bytes)?;
    match env::args(&rt) {
        Ok(keys) => {
            for key in keys.skip(1) {
                print_find(&rt, &bytes, kind, &key)?;
            }
            Ok(())
        }
        // an argument that is no text
        Err(_) => println!(rt; "find ? {}", Decline::UnreadableLine),
    }
}

// What the trailer says and what check answers, or why there is no module: the kind that it names.
fn print_module(rt: &impl Print, bytes: &[u8]) -> io::Result<Result<RecordKind, Decline>> {
    match Module::read(bytes) {
        Ok(module) => {
            print_layout(rt, module.layout)?;
            print_check(rt, bytes)?;
            Ok(Ok(module.kind))
        }
        Err(decline) => {
            println!(rt; "decline {decline}")?;
            Ok(Err(decline))
        }
    }
}

// One line for each number.
fn print_layout(rt: &impl Print, layout: Layout) -> io::Result<()> {
    let size = layout.size;
    println!(rt; "kind {}", layout.kind)?;
    println!(rt; "family {}", layout.family)?;
    println!(rt; "t {}", size.settings.t)?;
    println!(rt; "B {}", size.settings.cells)?;
    println!(rt; "H {}", size.settings.choices)?;
    println!(rt; "x0 {}", size.settings.start)?;
    println!(rt; "x {}", size.x)?;
    println!(rt; "j {}", size.j)?;
    println!(rt; "d {}", size.settings.load)?;
    println!(rt; "n {}", layout.count)?;
    println!(rt; "buckets {}", size.buckets())?;
    println!(rt; "cells {}", layout.cells())?;
    println!(rt; "used cells {}", layout.used())
}

// 0, or what is wrong.
fn print_check(rt: &impl Print, bytes: &[u8]) -> io::Result<()> {
    match check(bytes) {
        Ok(()) => println!(rt; "check 0"),
        Err(fault) => println!(rt; "check {fault}"),
    }
}

// The record of a key, by the kind that the trailer names.
fn print_find(
    rt: &impl Print,
    bytes: &[u8],
    kind: Result<RecordKind, Decline>,
    key: &str,
) -> io::Result<()> {
    match kind {
        Ok(RecordKind::Tare) => print_found::<TareRecord>(rt, bytes, key),
        Ok(RecordKind::Tag) => print_found::<TagRecord>(rt, bytes, key),
        Err(decline) => println!(rt; "find {key} {decline}"),
    }
}

// The numbers of a key's record, or nothing, or why there is no answer.
fn print_found<R: Printed>(rt: &impl Print, bytes: &[u8], key: &str) -> io::Result<()> {
    match R::typed(key).and_then(|typed| find::<R>(bytes, typed)) {
        Ok(Some(record)) => {
            let (first, second) = record.printed();
            println!(rt; "find {key} 0 {first} {second}")
        }
        Ok(None) => println!(rt; "find {key} -"),
        Err(decline) => println!(rt; "find {key} {decline}"),
    }
}
