// The refusals of 01's table and of 02, whose numbers every call answers.
ghost use Rattle.std.specs.Prelude.{◌≡◌};
ghost use Rattle.base.specs.Refusals.{number};

// A refusal; 01 has trade words for those up to 13, and 02 has none.
#[derive(Clone, Copy)]
pub enum Refusal {
    // 1: a coordinate or index count is not a multiple of 3
    Ragged,
    // 2: there are more vertices or faces than the limit
    Oversize,
    // 3: a face names a vertex that is not there
    LooseCorner,
    // 4: a run is too short for the store
    ShortStore,
    // 5: the store is not sound
    Unsound,
    // 6: the place is 32 or more
    NoPlace,
    // 7: the place to clear, reweigh or adopt is empty
    Vacant,
    // 8: work is left that this reading needs
    Unfinished,
    // 9: the run to be written is too short, or a kernel list is not of sixes
    ShortList,
    // 10: n is above 16, or a run of a length that does not go with n
    BadMatrix,
    // 11: the system of equations has a flat pivot
    FlatPivot,
    // 12: an exponent is farther than 1e-9 from 1, where only 1 is taken (NaN passes)
    Exponent,
    // 13: a line that is none of the program's forms, or bytes that are not a whole opening and then puts
    BadLine,
    // 14: a track is too long or not of threes, or its run is too short
    BadTrack,
    // 15: more than 32 kernels are to be billed
    ManyKernels,
    // 16: a layer is above 15
    NoLayer,
    // 17: a place's field mass is NaN or beyond 10^15 kilograms, so that the page has no figure for it
    NoFigure,
    // 18: the page's bytes are too few
    ShortPage,
    // 19: the bytes are too few for a store's lines
    ShortText,
    // 20: a line that is no kernel line
    BadKernelLine,
    // 21: the two loaders make different kernels of the lines
    LoadersDiffer,
    // 22: the mesh is not closed
    Unclosed,
}

// The number of a refusal in 01 or 02.
impl From<Refusal> for u32 {
    ghost from_gives = { λ refusal no. no ≡ number refusal };

    fn from(refusal: Refusal) -> u32 {
        match refusal {
            Refusal::Ragged => 1,
            Refusal::Oversize => 2,
            Refusal::LooseCorner => 3,
            Refusal::ShortStore => 4,
            Refusal::Unsound => 5,
            Refusal::NoPlace => 6,
            Refusal::Vacant => 7,
            Refusal::Unfinished => 8,
            Refusal::ShortList => 9,
            Refusal::BadMatrix => 10,
            Refusal::FlatPivot => 11,
            Refusal::Exponent => 12,
            Refusal::BadLine => 13,
            Refusal::BadTrack => 14,
            Refusal::ManyKernels => 15,
            Refusal::NoLayer => 16,
            Refusal::NoFigure => 17,
            Refusal::ShortPage => 18,
            Refusal::ShortText => 19,
            Refusal::BadKernelLine => 20,
            Refusal::LoadersDiffer => 21,
            Refusal::Unclosed => 22,
        }
    }
}
