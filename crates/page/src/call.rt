// The call.
ghost use Rattle.std.specs.Prelude.{◌≡◌, IfOk, true, ◌+◌, ◌*◌, ◌≤◌, length};
ghost use Rattle.base.specs.Answers.{counted_as, printout};
ghost use Rattle.layout.specs.Runs.{write};
ghost use Rattle.layout.specs.Layout.{width, place_limit};
ghost use Rattle.layout.specs.SoundLaws.{Fine};
ghost use Rattle.page.specs.Page.{done_check, all_printable, held_rows, page_of, page_answer, page_step};

use crate::lines::write_total;
use crate::masses::{Sums, all_printable, place_line, total};
use base::refusal::Refusal;
use layout::check::check_store;
use layout::left::left;
use layout::offsets::PLACES;
use layout::runs::word;
use readings::places::Places;

// Writes the page of a sound store whose masses can be printed.
fn write_page(out: &mut [u8], places: Places)
    requires printable { all_printable (held_rows width places.floats.now places.words.now place_limit) ≡ true }
    requires room { 65 * length (held_rows width places.floats.now places.words.now place_limit) + 65
        ≤ length out.old }
    ensures { out.new ≡ write out.old 0
        (page_of (held_rows width places.entry.floats.now places.entry.words.now place_limit)) }
{
    let mut s = Sums {
        at: 0,
        plus: 0,
        less: 0,
    };
    for i in 0..PLACES {
        s = place_line(out, places.floats, i, places.status_at(i), s);
    }
    write_total(out, s.at, total(s.plus, s.less));
}

// Refusal 17 or 18, or the page.
fn page_of(places: Places, out: &mut [u8]) -> Result<u64, Refusal>
    ensures { printout (counted_as result) out.new
        ≡ page_answer (held_rows width places.entry.floats.now places.entry.words.now place_limit) out.old }
{
    if !all_printable(places) {
        return Err(Refusal::NoFigure);
    }
    let need = 65 * places.filled() + 65;
    if need > out.len() {
        return Err(Refusal::ShortPage);
    }
    write_page(out, places);
    Ok(need as u64)
}

// Refusal 4, 5 or 8: a page takes places of every layer, so that work left in any of them refuses it. Where it passes,
// the store is sound.
#[tactic(auto, unfolding(crate::specs::Page::done_check), using(layout::specs::SoundLaws::fine))]
fn check_done(floats: &[f64], words: &[u32]) -> Result<(), Refusal>
    ensures refusal { result ≡ done_check width floats.now words.now }
    ensures sound { IfOk result (λ _. Fine width floats.now words.now) }
{
    check_store(floats, words)?;
    if 0 < left(words, word(words, 1)) {
        return Err(Refusal::Unfinished);
    }
    Ok(())
}

// Writes the page of a store whose work is done into lent bytes.
#[tactic(auto, unfolding(crate::specs::Page::page_step))]
pub fn page(floats: &[f64], words: &[u32], out: &mut [u8]) -> Result<u64, Refusal>
    ensures { printout (counted_as result) out.new
        ≡ page_step width floats.now words.now out.old }
{
    check_done(floats, words)?;
    page_of(Places { floats, words }, out)
}
