// Whole fits: a line for each with its sigma, alpha and radius, how many pieces it has, its peak error and
// how it ended, then a line for each piece: its sigma and its coefficient.
use crate::lines::put_end_of_fit;
use crate::tables::FITS;
use base::floats::from_pattern;
use kernel::kernel::Kernel;
use pieces::pieces::{Pieces, decompose};
use std::io;
use test_words::{put_bits, put_end, put_float, put_floats, put_number};

// Writes the line of one piece.
fn put_piece(rt: &impl Print, sigma: f64, coefficient: f64) -> io::Result<()> {
    print!(rt; "piece")?;
    put_floats(rt, &[sigma, coefficient])?;
    put_end(rt)
}

// Writes the lines of the pieces.
fn put_pieces(rt: &impl Print, p: Pieces) -> io::Result<()> {
    for piece in p.list.iter().take(p.count) {
        put_piece(rt, piece.sigma, piece.coefficient)?;
    }
    Ok(())
}

// Writes the lines of the fit of these bits.
fn put_fit(rt: &impl Print, sigma: u64, alpha: u64, radius: u64) -> io::Result<()> {
    let k = Kernel {
        c: [0.0; 3],
        sigma: from_pattern(sigma),
        w: 1.0,
        alpha: from_pattern(alpha),
    };
    let d = decompose(k, from_pattern(radius));
    let p = d.pieces;
    let fit = d.fit;
    print!(rt; "fit")?;
    put_bits(rt, sigma)?;
    put_bits(rt, alpha)?;
    put_bits(rt, radius)?;
    put_number(rt, p.count as u64)?;
    put_float(rt, p.error)?;
    put_end_of_fit(rt, fit)?;
    put_end(rt)?;
    put_pieces(rt, p)
}

// All the fits.
pub fn put_fits(rt: &impl Print) -> io::Result<()> {
    for fit in FITS.chunks_exact(3) {
        put_fit(rt, fit[0], fit[1], fit[2])?;
    }
    Ok(())
}
