// The two calls of the terminal's C firmware, on numbers and byte spans only. The crate firmware_c gives them their C symbols.
#![tactic(auto)]

ghost use Rattle.std.specs.Prelude.{◌≡◌, ℕ, Option, Result};
ghost use Rattle.records.specs.declared.declines.Decline.{Decline};
ghost use Rattle.modules.specs.declared.faults.Fault.{Fault};
ghost use Rattle.modules.specs.Modules.{FindsCell, ModuleChecks};
ghost use Rattle.firmware.specs.Numbers.{check_number_lem, find_number_lem};

use modules::calls::{check, find_cell};
use modules::faults::Fault;
use records::declines::Decline;
use records::numbers::Words;

// 0, or the decline's number and 256 times the cell that it names: C gets numbers.
fn check_number(answer: Result<(), Fault>) -> u64
    ensures { result ≡ check_number_lem answer }
{
    match answer {
        Ok(()) => 0,
        Err(fault) => {
            let number = u64::from(fault.decline.number());
            match fault.cell {
                None => number,
                Some(cell) => number + 256 * u64::from(cell),
            }
        }
    }
}

// 0 for nothing, 256 times the cell's number plus one, or the decline's number.
fn find_number(answer: Result<Option<u32>, Decline>) -> u64
    ensures { result ≡ find_number_lem answer }
{
    match answer {
        Ok(None) => 0,
        Ok(Some(cell)) => 256 * (u64::from(cell) + 1),
        Err(decline) => u64::from(decline.number()),
    }
}

// Check as a number: 0, or the decline's number plus 256 times the cell named, if one is.
pub fn module_check(bytes: &[u8]) -> u64
    ensures { (a : Result (Unit {0}) Fault) × ModuleChecks bytes.now a × (result ≡ check_number_lem a) }
{
    check_number(check(bytes))
}

// Find as a number: 256 times the cell's number plus one, 0 for nothing, or 14.
pub fn module_find(bytes: &[u8], first: u64, second: u64) -> u64
    ensures { (a : Result (Option ℕ) Decline) × FindsCell bytes.now (record { first = first; second = second }) a × (result ≡ find_number_lem a) }
{
    find_number(find_cell(bytes, Words { first, second }))
}
