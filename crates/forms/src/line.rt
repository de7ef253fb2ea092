// What a line says.
use density::convention::Convention;
use kernel::kernel::Kernel;

// A kernel, and the place that it is put in.
#[derive(Clone, Copy)]
pub struct Put {
    pub place: u32,
    pub kernel: Kernel,
}

// A call on the program's store.
#[derive(Clone, Copy)]
pub enum Call {
    Put(Put),
    Clear(u32),
    Reweigh(u32, f64),
    Advance(u64),
    Density(Convention, [f64; 3]),
    Report(Convention),
}

// The first line of an opening: its radius and its counts.
#[derive(Clone, Copy)]
pub struct Head {
    pub radius: f64,
    pub verts: u32,
    pub faces: u32,
}

// A line by its form: one of an opening, or a call on the store.
#[derive(Clone, Copy)]
pub enum Line {
    Open(Head),
    Vert([f64; 3]),
    Face([u32; 3]),
    OnStore(Call),
}
