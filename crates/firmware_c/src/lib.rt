// The symbols that the terminal's C firmware links, each a call of the library firmware. include/firmware.h declares them.
#![tactic(auto)]

ghost use Rattle.std.specs.Prelude.{◌≡◌, ℕ, Option, Result};
ghost use Rattle.records.specs.declared.declines.Decline.{Decline};
ghost use Rattle.modules.specs.declared.faults.Fault.{Fault};
ghost use Rattle.modules.specs.Modules.{FindsCell, ModuleChecks};
ghost use Rattle.firmware.specs.Numbers.{check_number_lem, find_number_lem};

// Check as a number: 0, or the decline's number plus 256 times the cell named, if one is.
#[unsafe(no_mangle)]
pub extern "C" fn module_check(bytes: &[u8]) -> u64
    ensures { (a : Result (Unit {0}) Fault) × ModuleChecks bytes.now a × (result ≡ check_number_lem a) }
{
    firmware::module_check(bytes)
}

// Find as a number: 256 times the cell's number plus one, 0 for nothing, or 14.
#[unsafe(no_mangle)]
pub extern "C" fn module_find(bytes: &[u8], first: u64, second: u64) -> u64
    ensures { (a : Result (Option ℕ) Decline) × FindsCell bytes.now (record { first = first; second = second }) a × (result ≡ find_number_lem a) }
{
    firmware::module_find(bytes, first, second)
}
