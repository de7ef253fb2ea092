// The report of what is finished: that of the places whose steps are complete, while work may be left in others.
ghost use Rattle.std.specs.Prelude.{◌≡◌};
ghost use Rattle.layout.specs.Layout.{width};
ghost use Rattle.readings.specs.Finished.{finished_step};
ghost use Rattle.reports.specs.FinishedAnswer.{finished_read};

use crate::reports::{Finished, body_of, report_seen};
use base::refusal::Refusal;
use density::convention::Convention;
use layout::runs::word;
use readings::places::Places;
use readings::seen::{complete_places, seen_places};
use readings::shared::check_seen;

// The masses of the places in some layers that have no work left, under a convention.
pub fn finished(
    floats: &[f64],
    words: &[u32],
    v: Convention,
    layers: u32,
) -> Result<Finished, Refusal>
    ensures { finished_read result ≡ finished_step width floats.now words.now layers v }
{
    check_seen(floats, words, layers)?;
    let seen = seen_places(words, layers);
    let done = complete_places(words, layers);
    let all = Places {
        floats,
        words: &seen,
    };
    let finished = Places {
        floats,
        words: &done,
    };
    let passed = all.filled() - finished.filled();
    let body = body_of(floats, words, word(words, 0), word(words, 1));
    let totals = report_seen(finished, v, body);
    Ok(Finished {
        totals,
        passed: passed as u32,
    })
}
