// What all readings of a store share: when one is refused, and the scale that a convention puts on every weight.
// Internal: a function with a `requires` is called by proved code alone.
ghost use Rattle.std.specs.Prelude.{◌≡◌, IfOk};
ghost use Rattle.density.specs.declared.convention.Convention.TheVariants.{Rho0, Mass};
ghost use Rattle.layout.specs.Layout.{width, place_limit};
ghost use Rattle.std.specs.Result.{result_and};
ghost use Rattle.layout.specs.Soundness.{store_check};
ghost use Rattle.layout.specs.Layers.{layers_check};
ghost use Rattle.layout.specs.SoundLaws.{Fine};
ghost use Rattle.readings.specs.Readings.{by_mass, applied, held_all_lem};
ghost use Rattle.readings.specs.Checks.{read_check};

use crate::places::Places;
use crate::seen::{check_layers, unfinished};
use base::refusal::Refusal;
use density::convention::{Convention, bulk_of, rho0_scale, scalable, target_of};
use layout::check::check_store;
use layout::runs::word;

// Whether a convention is by mass with a target above 0.
pub fn by_mass(v: Convention) -> bool
    ensures { result ≡ by_mass v }
{
    match v {
        Convention::Raw => false,
        Convention::Rho0(_) => false,
        Convention::Mass(target, _) => target > 0.0,
    }
}

// Refusal 4, 5 or 16 of a reading; where it passes, the store is sound.
#[tactic(auto, using(layout::specs::SoundLaws::fine))]
pub fn check_seen(floats: &[f64], words: &[u32], layers: u32) -> Result<(), Refusal>
    ensures refusal { result ≡ result_and (store_check width floats.now words.now) (layers_check layers) }
    ensures sound { IfOk result (λ _. Fine width floats.now words.now) }
{
    check_store(floats, words)?;
    check_layers(layers)?;
    Ok(())
}

// Refusal 4, 5, 16 or 8 of a reading that needs the work done, or not; where it passes, the store is sound.
#[tactic(auto, unfolding(crate::specs::Checks::read_check))]
pub fn check_read(floats: &[f64], words: &[u32], layers: u32, needs: bool) -> Result<(), Refusal>
    ensures refusal { result ≡ read_check width floats.now words.now layers needs }
    ensures sound { IfOk result (λ _. Fine width floats.now words.now) }
{
    check_seen(floats, words, layers)?;
    if needs && unfinished(words, layers, word(words, 1)) {
        return Err(Refusal::Unfinished);
    }
    Ok(())
}

impl<'a> Places<'a> {
    // The scale by rho0, which looks at no volume.
    #[tactic(auto, unfolding(density::specs::Conventions::applied_scale_lem), using(crate::specs::FoldLaws::origin_sum))]
    fn scale_by_rho0(self, bulk: f64) -> f64
        ensures { result ≡ applied (Rho0 bulk)
            (held_all_lem width self.entry.floats.now self.entry.words.now place_limit) }
    {
        rho0_scale(bulk_of(Convention::Rho0(bulk)), self.origin_density())
    }

    // The scale by mass. The density at the origin is summed only where there is no mass to scale.
    fn scale_by_mass(self, target: f64, bulk: f64) -> f64
        ensures { result ≡ applied (Mass target bulk)
            (held_all_lem width self.entry.floats.now self.entry.words.now place_limit) }
    {
        let v = Convention::Mass(target, bulk);
        let aim = target_of(v);
        let mass = self.mass();
        if scalable(aim, mass) {
            return aim / mass;
        }
        rho0_scale(bulk_of(v), self.origin_density())
    }

    // The scale that a convention puts on every weight.
    #[tactic(auto, unfolding(density::specs::Conventions::applied_scale_lem))]
    pub fn scale(self, v: Convention) -> f64
        ensures { result ≡ applied v
            (held_all_lem width self.entry.floats.now self.entry.words.now place_limit) }
    {
        match v {
            Convention::Raw => 1.0,
            Convention::Rho0(bulk) => self.scale_by_rho0(bulk),
            Convention::Mass(target, bulk) => self.scale_by_mass(target, bulk),
        }
    }
}
