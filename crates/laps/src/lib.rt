// A lap's difference and entry as one key, and back; and the difference that a pad reports.
#![tactic(auto)]

ghost use Rattle.std.specs.Prelude.{◌≡◌};
ghost use Rattle.laps.specs.Laps.{difference_in_range, lap_in_range, lap_at, pad_in_range, told, key_of_lap, lap_of_key, difference_of_pad};

// The least difference from par, in hundredths of a second.
const LEAST_DIFFERENCE: i32 = -1000000;

// The greatest.
const MOST_DIFFERENCE: i32 = 1000000;

// Entry numbers start at 0.
const LAST_ENTRY: u32 = 1023;

// Keys to a difference.
const ENTRIES: i32 = 1024;

// The least that a pad reports, in thousandths of a second.
const LEAST_PAD: i32 = -10000000;

// The greatest.
const MOST_PAD: i32 = 10000000;

// Thousandths in a hundredth.
const PER_HUNDREDTH: i32 = 10;

// A lap: hundredths from par, and the entry number.
#[derive(Clone, Copy, Debug, PartialEq, Eq)]
pub struct Lap {
    pub difference: i32,
    pub entry: u32,
}

// Refusal 6: a lap outside its ranges, a key of no lap, or a report that no pad gives.
#[derive(Clone, Copy, Debug, PartialEq, Eq)]
pub struct OutOfRange;

#[tactic(auto, unfolding(crate::specs::Laps::difference_in_range, crate::specs::Laps::between))]
fn difference_in_range(difference: i32) -> bool
    ensures { result ≡ difference_in_range difference }
{
    (LEAST_DIFFERENCE..=MOST_DIFFERENCE).contains(&difference)
}

#[tactic(auto, unfolding(crate::specs::Laps::lap_in_range))]
fn lap_in_range(difference: i32, entry: u32) -> bool
    ensures { result ≡ lap_in_range difference entry }
{
    difference_in_range(difference) && entry <= LAST_ENTRY
}

#[tactic(auto, using(crate::proofs::Keys::product_fits, crate::proofs::Keys::entry_fits, crate::proofs::Keys::key_fits, crate::proofs::Keys::machine_key), unfolding(crate::specs::Laps::told, crate::specs::Laps::key_of_lap, laws::specs::Choice::pick))]
pub fn key_of_lap(difference: i32, entry: u32) -> Result<i32, OutOfRange>
    ensures { told result ≡ key_of_lap difference entry }
{
    if lap_in_range(difference, entry) {
        let key = difference * ENTRIES + entry as i32;
        Ok(key)
    } else {
        Err(OutOfRange)
    }
}

// The difference and entry that a key stands for, in range or not.
// Stays: (a) docs/MACHINE.md, 'Form by location': signed division corrected; and laps:Floor's laws are of this correction.
fn lap_at(key: i32) -> Lap
    ensures { result ≡ lap_at key }
{
    let quotient = key / ENTRIES;
    let rest = key % ENTRIES;
    // `/` drops the fraction: below zero that is one too high, unless nothing remains
    if rest < 0 {
        let difference = quotient - 1;
        let entry = (rest + ENTRIES) as u32;
        Lap { difference, entry }
    } else {
        let entry = rest as u32;
        Lap {
            difference: quotient,
            entry,
        }
    }
}

#[tactic(auto, unfolding(crate::specs::Laps::told, crate::specs::Laps::lap_of_key, laws::specs::Choice::pick, crate::specs::Laps::lap_at))]
pub fn lap_of_key(key: i32) -> Result<Lap, OutOfRange>
    ensures { told result ≡ lap_of_key key }
{
    let lap = lap_at(key);
    if difference_in_range(lap.difference) {
        Ok(lap)
    } else {
        Err(OutOfRange)
    }
}

#[tactic(auto, unfolding(crate::specs::Laps::pad_in_range, crate::specs::Laps::between))]
fn pad_in_range(thousandths: i32) -> bool
    ensures { result ≡ pad_in_range thousandths }
{
    (LEAST_PAD..=MOST_PAD).contains(&thousandths)
}

// The machine's `/` drops the fraction.
#[tactic(auto, unfolding(crate::specs::Laps::told, crate::specs::Laps::difference_of_pad, laws::specs::Choice::pick, crate::specs::Laps::pad_difference))]
pub fn difference_of_pad(thousandths: i32) -> Result<i32, OutOfRange>
    ensures { told result ≡ difference_of_pad thousandths }
{
    if pad_in_range(thousandths) {
        let difference = thousandths / PER_HUNDREDTH;
        Ok(difference)
    } else {
        Err(OutOfRange)
    }
}
