//! Pieces in the order in which their texts stand.
ghost use Rattle.std.specs.Prelude.{◌≡◌, map, IfOk};
ghost use Rattle.ed_layers.specs.Pieces.{side_rank};
ghost use Rattle.ed_pieces.specs.Order.{AreInOrder, key_of, pair_key};

use ed_base::{BufferNo, OutOfMemory, Piece, Side};
use std::alloc::Global;

/// L, M, R.
fn side_rank(side: Side) -> u8
    ensures { result ≡ side_rank side }
{
    match side {
        Side::L => 0,
        Side::M => 1,
        Side::R => 2,
    }
}

/// By the last pair: no pair first, then by carrier and member.
fn pair_key(trail: &[(BufferNo, u32)]) -> (u64, u32)
    ensures { result ≡ pair_key trail.now }
{
    match trail.last() {
        None => (0, 0),
        Some((carrier, member)) => (u64::from(carrier.0) + 1, *member),
    }
}

/// By start, by side, and by the last pair of the trail.
fn key(piece: &Piece) -> (u32, u8, u64, u32)
    ensures { result ≡ key_of piece.now }
{
    let (carrier, member) = pair_key(piece.trail.as_slice());
    (piece.start, side_rank(piece.side), carrier, member)
}

/// The pieces by rising start, and at one gap in the order in which their texts stand. What ties
/// stays in its order.
///
/// # Errors
///
/// Memory was refused.
pub fn in_order<'p>(alloc: Global, pieces: &'p [Piece]) -> Result<Vec<&'p Piece>, OutOfMemory>
    ensures { IfOk result (λ v. AreInOrder pieces.now (map (λ p. p.now) v.items)) }
{
    let mut order: Vec<&Piece> = pieces.iter().collect(alloc)?;
    order.sort_by_key(|piece| key(piece))?;
    Ok(order)
}
