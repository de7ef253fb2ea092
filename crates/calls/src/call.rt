// A call on the store, by its kind. No function here has a `requires`.
ghost use Rattle.std.specs.Prelude.{◌≡◌, ◌≤◌};
ghost use Rattle.text.specs.Print.{Wrote};
ghost use Rattle.calls.specs.Calls.{call_of};

use crate::answer::{
    answer_advance, answer_clear, answer_density, answer_put, answer_report, answer_reweigh,
};
use forms::line::Call;

// Makes a call, and writes its answer.
pub fn call(c: Call, floats: &mut [f64], words: &mut [u32], out: &mut [u8; 512]) -> usize
    ensures upper_bound { result ≤ 256 }
    ensures floats_after { floats.new ≡ (call_of floats.old words.old c).floats }
    ensures words_after { words.new ≡ (call_of floats.old words.old c).words }
    ensures wrote { Wrote out.old 0 (call_of floats.old words.old c).text result
        out.new }
{
    match c {
        Call::Put(p) => answer_put(floats, words, p.place, p.kernel, out),
        Call::Clear(place) => answer_clear(floats, words, place, out),
        Call::Reweigh(place, weight) => answer_reweigh(floats, words, place, weight, out),
        Call::Advance(budget) => answer_advance(floats, words, budget, out),
        Call::Density(v, point) => answer_density(floats, words, v, point, out),
        Call::Report(v) => answer_report(floats, words, v, out),
    }
}
