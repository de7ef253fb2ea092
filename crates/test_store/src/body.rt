// The mesh of the history: an uneven box of 8 vertices and 12 faces, then two points more, and a face whose last corner
// is the ninth vertex. An opening takes so many coordinates and corners from the front, or the corners from one
// position to another: then some vertices are in no face.
pub fn coordinates() -> [f64; 30] {
    [
        -1.0, -1.5, -1.0, 1.0, -1.25, -1.0, 1.5, 1.0, -0.75, -1.0, 1.0, -1.0, -1.25, -1.0, 1.0,
        1.0, -1.0, 1.0, 1.0, 1.75, 1.0, -1.0, 1.0, 1.125, 4.0, 0.0, 0.0, 0.0, 4.0, 0.0,
    ]
}

pub fn corners() -> [u32; 39] {
    [
        0, 2, 1, 0, 3, 2, 4, 5, 6, 4, 6, 7, 0, 1, 5, 0, 5, 4, 1, 2, 6, 1, 6, 5, 2, 3, 7, 2, 7, 6,
        3, 0, 4, 3, 4, 7, 0, 1, 8,
    ]
}

// The points of a track, one of which is no number and one infinitely far.
pub fn points() -> [f64; 24] {
    [
        0.75,
        -0.5,
        0.25,
        0.25,
        -0.125,
        0.5,
        0.0,
        0.0,
        0.0,
        -0.0,
        0.0,
        3.0,
        0.0 / 0.0,
        0.5,
        0.5,
        1.0 / 0.0,
        1.0,
        2.0,
        1e300,
        1.0,
        1.0,
        -2.0,
        1.5,
        0.125,
    ]
}
