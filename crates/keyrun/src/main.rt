// Answers lines about keys and sizes, one answer to a line: hashes, plates, positions, and sizes one grow on or back.
#![tactic(auto)]

use addresses::positions::choice;
use addresses::sizes::{SettingNumbers, Settings, Size};
use records::declines::Decline;
use records::kinds::Record;
use records::plates::Plate;
use records::records::TareRecord;
use std::io;
use std::io::{BufRead, BufReader};

fn main(rt: HostRuntime) -> io::Result<()> {
    for line in BufReader::new(rt.alloc(), rt.stdin())?.split(rt.alloc(), b'\n') {
        answer(&rt, &line?)?;
    }
    Ok(())
}

// A letter, a blank and what is asked of.
fn answer(rt: &impl Print, line: &[u8]) -> io::Result<()> {
    match line {
        [b'h', b' ', asked @ ..] => {
            let hash = addresses::hashes::fnv(asked);
            println!(rt; "h {hash:016x}")
        }
        [b'p', b' ', asked @ ..] => answer_plate(rt, asked),
        [b'a', b' ', asked @ ..] => answer_positions(rt, asked),
        [b'g', b' ', asked @ ..] => answer_size(rt, 'g', asked, Size::grown),
        [b's', b' ', asked @ ..] => answer_size(rt, 's', asked, Size::shrunk),
        _ => decline_line(rt),
    }
}

fn decline_line(rt: &impl Print) -> io::Result<()> {
    println!(rt; "? {}", Decline::UnreadableLine)
}

// The key words of a plate as typed.
fn answer_plate(rt: &impl Print, text: &[u8]) -> io::Result<()> {
    match Plate::from_text(text) {
        Ok(plate) => {
            let words = TareRecord::words(plate);
            println!(rt; "p 0 {:016x} {:016x}", words.first, words.second)
        }
        Err(decline) => println!(rt; "p {decline}"),
    }
}

// The number of buckets at a size, and the positions of a hash word's choices there.
fn answer_positions(rt: &impl Print, text: &[u8]) -> io::Result<()> {
    let Some(numbers) = numbers_in::<8>(text) else {
        return decline_line(rt);
    };
    let [t, cells, choices, start, load, x, j, word] = numbers;
    match size_of([t, cells, choices, start, load, x, j]) {
        Ok(Some(size)) => {
            print!(rt; "a 0 {}", size.buckets())?;
            for i in 0..size.settings.choices {
                print!(rt; " {}", size.position(choice(word, i)))?;
            }
            println!(rt; "")
        }
        Ok(None) => println!(rt; "a -"),
        Err(decline) => println!(rt; "a {decline}"),
    }
}

// The size that a step leads to.
fn answer_size<F: Fn(Size) -> Result<Size, Decline>>(
    rt: &impl Print,
    letter: char,
    text: &[u8],
    step: F,
) -> io::Result<()>
    requires { F.IsAlwaysCallable step }
{
    let Some(asked) = numbers_in(text) else {
        return decline_line(rt);
    };
    match size_of(asked).and_then(|size| size.map(step).transpose()) {
        Ok(Some(size)) => println!(rt; "{letter} 0 {} {} {}", size.x, size.j, size.buckets()),
        Ok(None) => println!(rt; "{letter} -"),
        Err(decline) => println!(rt; "{letter} {decline}"),
    }
}

// The size that numbers name, if they name one.
fn size_of(numbers: [u64; 7]) -> Result<Option<Size>, Decline> {
    let [t, cells, choices, start, load, x, j] = numbers.map(narrow);
    let settings = Settings::new(SettingNumbers {
        t,
        cells,
        choices,
        start,
        load,
    })?;
    Ok(Size::new(settings, x, j))
}

// A number that is too large stays outside every range.
fn narrow(number: u64) -> u32 {
    u32::try_from(number).unwrap_or(u32::MAX)
}

// The hexadecimal numbers between blanks, if they are so many.
fn numbers_in<const N: usize>(text: &[u8]) -> Option<[u64; N]> {
    let mut fields = std::str::from_utf8(text).ok()?.split(' ');
    let mut numbers = [0; N];
    for number in &mut numbers {
        *number = u64::from_str_radix(fields.next()?, 16).ok()?;
    }
    match fields.next() {
        Some(_) => None,
        None => Some(numbers),
    }
}
