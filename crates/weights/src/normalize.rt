// The kernels' weights brought to a target mass. The exported `normalize_kernels` has no `requires`.
// Internal: a function with a `requires` is called by proved code alone.
ghost use Rattle.std.specs.Prelude.{◌≡◌, ◌*◌, ◌/◌, ◌<◌, ◌≤◌, length};
ghost use Rattle.mesh.specs.Meshes.{face_count_of, triangles_of, MeshIf};
ghost use Rattle.base.specs.Answers.{done_as, outcome};
ghost use Rattle.weights.specs.Weights.{stretched, off_unit, some_off, kernel_mass, raw_mass_lem, scale_of, scaled, scaled_by, written_of, call_check, normalized_run, normalized};
ghost use Rattle.weights.specs.Lists.{list_of, kernel_count_of};

use base::floats::abs;
use base::refusal::Refusal;
use kernel::field::{centre_of, check_field};
use kernel::kernel::{Kernel, kernel_at, write_kernel};
use mesh::triangles::Mesh;
use source::volume::volume_of;

// A list of kernels, six floats each, taken as they are given, or stretched by a factor with their mesh.
#[derive(Clone, Copy)]
pub struct Kernels<'a> {
    pub floats: &'a [f64],
    pub stretch: Option<f64>,
}

impl<'a> Kernels<'a> {
    // How many kernels there are.
    fn count(self) -> usize
        ensures { result ≡ kernel_count_of self.entry }
    {
        self.floats.len() / 6
    }

    // Kernel i.
    fn kernel(self, i: usize) -> Kernel
        requires { i < kernel_count_of self }
        ensures { result ≡ list_of self.entry i }
    {
        let k = kernel_at(self.floats, i);
        match self.stretch {
            None => k,
            Some(s) => stretch_kernel(k, s),
        }
    }
}

// A kernel stretched by a factor: its centre multiplied, its inverse width divided.
#[tactic(auto, unfolding(crate::specs::Weights::stretched))]
fn stretch_kernel(k: Kernel, s: f64) -> Kernel
    ensures { result ≡ stretched s k }
{
    Kernel {
        c: [k.c[0] * s, k.c[1] * s, k.c[2] * s],
        sigma: k.sigma / s,
        ..k
    }
}

// Whether a kernel's exponent is not 1; a NaN passes as 1. (Other crates ask by < or <=, where a NaN is not 1; each
// comparison is that of its definition, `off_unit` here.)
#[tactic(auto, unfolding(crate::specs::Weights::off_unit))]
fn off_unit(k: Kernel) -> bool
    ensures { result ≡ off_unit k }
{
    abs(k.alpha - 1.0) > 1e-9
}

// Whether some kernel's exponent is not 1.
#[tactic(auto, unfolding(crate::specs::Weights::some_off), using(base::specs::TimesLaws::turns))]
fn some_off(kernels: Kernels) -> bool
    ensures { result ≡ some_off (list_of kernels.entry) (kernel_count_of kernels.entry) }
{
    let mut some = false;
    for i in 0..kernels.count() {
        some = some | off_unit(kernels.kernel(i));
    }
    some
}

// The mass of a kernel inside a mesh. (Not mass's: this takes source's volume, as `kernel_mass` has it.)
#[tactic(auto, unfolding(crate::specs::Weights::kernel_mass))]
fn kernel_mass(mesh: Mesh, k: Kernel) -> f64
    ensures { result ≡ kernel_mass (triangles_of mesh.entry) (face_count_of mesh.entry) k }
{
    k.w * volume_of(mesh, centre_of(k), k.sigma)
}

// The mass of all kernels inside a mesh.
#[tactic(auto, unfolding(crate::specs::Weights::raw_mass_lem), using(base::specs::TimesLaws::turns))]
fn raw_mass(mesh: Mesh, kernels: Kernels) -> f64
    ensures { result ≡ raw_mass_lem (triangles_of mesh.entry) (face_count_of mesh.entry)
        (list_of kernels.entry) (kernel_count_of kernels.entry) }
{
    let mut sum = 0.0;
    for i in 0..kernels.count() {
        sum += kernel_mass(mesh, kernels.kernel(i));
    }
    sum
}

// The scale that brings the raw mass to the target; 1 where there is no target or no mass.
// An infinite mass is not set apart: it is scaled to zero.
#[tactic(auto, unfolding(crate::specs::Weights::scale_of))]
fn scale_of(target: f64, raw: f64) -> f64
    ensures { result ≡ scale_of target raw }
{
    let scalable = (target > 0.0) & (abs(raw) > 1e-30);
    if scalable { target / raw } else { 1.0 }
}

// A kernel as it is, or with its weight scaled.
#[tactic(auto, unfolding(crate::specs::Weights::weighed))]
fn weigh(k: Kernel, scale: Option<f64>) -> Kernel
    ensures { result ≡ scaled scale k }
{
    match scale {
        None => k,
        Some(s) => Kernel { w: k.w * s, ..k },
    }
}

// Writes the first n kernels as they are, or with their weights scaled.
#[tactic(auto, unfolding(crate::specs::Weights::written_of), using(base::specs::TimesLaws::turns))]
pub fn write_all(kernels: Kernels, n: usize, scale: Option<f64>, run: &mut [f64])
    requires { (6 * n ≤ length kernels.floats.now) × (6 * n ≤ length run.old) }
    ensures { run.new ≡ written_of (scaled_by scale (list_of kernels.entry)) n run.old }
{
    for i in 0..n {
        write_kernel(run, i, weigh(kernels.kernel(i), scale));
    }
}

// Writes every kernel of the list. The run has room for them: floats past the last whole kernel need none.
pub fn write_kernels(kernels: Kernels, scale: Option<f64>, run: &mut [f64])
    requires { 6 * kernel_count_of kernels ≤ length run.old }
    ensures { run.new ≡ written_of (scaled_by scale (list_of kernels.entry))
        (kernel_count_of kernels.entry) run.old }
{
    write_all(kernels, kernels.count(), scale, run);
}

// The mesh of a call, or refusal 1, 2, 3 or 9 of its mesh, its list of kernels and the room of the run to be written.
#[tactic(auto, unfolding(crate::specs::Weights::call_check))]
pub fn check_call<'a>(
    xyz: &'a [f64],
    faces: &'a [u32],
    kernels: &[f64],
    room: usize,
) -> Result<Mesh<'a>, Refusal>
    ensures { MeshIf (call_check (length xyz.now) faces.now kernels.now room) xyz.now faces.now result }
{
    let mesh = check_field(xyz, faces, kernels)?;
    if kernels.len() <= room {
        return Ok(mesh);
    }
    Err(Refusal::ShortList)
}

// Brings kernels to a target mass inside a mesh.
#[tactic(auto, unfolding(crate::specs::Weights::normalized_run))]
pub fn normalize(mesh: Mesh, kernels: Kernels, target: f64, run: &mut [f64]) -> Result<(), Refusal>
    requires { length kernels.floats.now ≤ length run.old }
    ensures { outcome (done_as result) run.new
        ≡ normalized_run (triangles_of mesh.entry) (face_count_of mesh.entry)
        (list_of kernels.entry) (kernel_count_of kernels.entry) target run.old }
{
    if some_off(kernels) {
        return Err(Refusal::Exponent);
    }
    let scale = scale_of(target, raw_mass(mesh, kernels));
    write_kernels(kernels, Some(scale), run);
    Ok(())
}

// Brings a list of kernels to a target mass inside a mesh, and writes them to the run. Words past
// them, and the whole run at a refusal, stay as they were.
#[tactic(auto, unfolding(crate::specs::Weights::normalized), using(crate::proofs::Calls::passed_room))]
pub fn normalize_kernels(
    xyz: &[f64],
    faces: &[u32],
    kernels: &[f64],
    target: f64,
    run: &mut [f64],
) -> Result<(), Refusal>
    ensures { outcome (done_as result) run.new
        ≡ normalized xyz.now faces.now kernels.now target run.old }
{
    let mesh = check_call(xyz, faces, kernels, run.len())?;
    let given = Kernels {
        floats: kernels,
        stretch: None,
    };
    normalize(mesh, given, target, run)
}
