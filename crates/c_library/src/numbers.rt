//! Numbers as text.
ghost use Rattle.std.specs.Prelude.{decimal};
ghost use Rattle.c_objects.specs.Buffer.{IsPut};
ghost use Rattle.c_objects.specs.Totals.{joined_halves};

use c_objects::bounds::{Wide, joined};
use c_objects::numerals::put_number;

/// Writes a number of 128 bits as text, without a final 0 byte: at most 39 bytes.
#[unsafe(no_mangle)]
pub extern "C" fn kcp_wide_text(number: &Wide, text: &mut [u8], length: &mut u64) -> u32
    ensures { IsPut (decimal (joined_halves number.now.low number.now.high)) text.old result text.new length.new }
{
    put_number(joined(number), text, length)
}
