// The quote and the sheet of a plan file, for C and Rust to call.
#![tactic(auto)]

ghost use Rattle.std.specs.Prelude.{◌≡◌, length};
ghost use Rattle.std.specs.Result.{result_unwrap_or};
ghost use Rattle.printing.specs.Sheets.{place_after, print_answer, sheet_quote};
ghost use Rattle.foreign.specs.Outcomes.{outcome};

use printing::{print, quote_of};
use refusal::Refusal;

// The number of the first refusal, or 256 and the rounds of the quote: one number, since C asks for it.
#[unsafe(no_mangle)]
pub extern "C" fn hovzirna_outcome(bytes: &[u8]) -> u64
    ensures { result ≡ outcome (sheet_quote bytes.now) }
{
    match quote_of(bytes) {
        Ok(quote) => 256 + u64::from(quote.rounds),
        Err(fault) => u64::from(Refusal::from(fault).number),
    }
}

// The sheet at the front of the place; tells how many bytes it has, 0 where the place is too small.
#[unsafe(no_mangle)]
pub extern "C" fn hovzirna_sheet(bytes: &[u8], place: &mut [u8]) -> usize
    ensures answer { result ≡ result_unwrap_or (print_answer bytes.now (length place.old)) 0 }
    ensures after { place.new ≡ place_after bytes.now place.old }
{
    print(bytes, place).unwrap_or(0)
}
