// A store as lines of text, for C callers, with what src/stores.rt says of every call.
ghost use Rattle.std.specs.Prelude.{◌≡◌};
ghost use Rattle.layout.specs.Layout.{width};
ghost use Rattle.script.specs.Written.{write_step};
ghost use Rattle.reader.specs.ReadOf.{load_step};
ghost use Rattle.crossing.specs.Crossing.{lent};
ghost use Rattle.crossing.specs.StoreCrossing.{crossed, across, printed_from, loaded_from};

use crossing::scripts::CauchyLoaded;
use crossing::stores::CauchyBytes;
use reader::read::read_store;
use writer::write_store;

// Writes a store as lines of text: 4, 5 or 19. Bytes past them stay.
#[unsafe(no_mangle)]
pub extern "C" fn cauchy_store_write(floats: &[f64], words: &[u32], bytes: &mut [u8]) -> CauchyBytes
    ensures { lent result bytes.new
        ≡ printed_from (write_step width floats.now words.now bytes.old) }
{
    CauchyBytes::from(write_store(floats, words, bytes))
}

// Makes two runs the store that lines of text describe: 13, 2, 3, 4, 6 or 16. What the runs held does not matter, and
// words past the store's stay.
#[unsafe(no_mangle)]
pub extern "C" fn cauchy_store_read(
    floats: &mut [f64],
    words: &mut [u32],
    bytes: &[u8],
) -> CauchyLoaded
    ensures { crossed result floats.new words.new
        ≡ across loaded_from (load_step width floats.old words.old bytes.now) }
{
    CauchyLoaded::from(read_store(floats, words, bytes))
}
