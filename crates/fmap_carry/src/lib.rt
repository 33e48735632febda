#![tactic(auto)]

// Carrying preserved areas by two given maps: their moves are listed and judged, and only then made.
// An inner crate: no user calls it, so its functions may have a `requires`, which each caller meets.
ghost use Rattle.std.specs.Prelude.{◌≡◌, true, false, ◌+◌, ◌≤◌, ◌<◌, length, map, take, MatchResult};
ghost use Rattle.std.proofs.Math.Option.{none, some};
ghost use Rattle.octets.specs.Tests.{all, any, pairs};
ghost use Rattle.octets.specs.Rows.{refusal};
ghost use Rattle.octets.specs.Bytes.{rest};
ghost use Rattle.fmap_rules.specs.Map.{area_of, areas_of, good_map};
ghost use Rattle.fmap_carry.specs.Carry.{preserved, missing, carry_rows, number_of, judged_number, carry_areas};
ghost use Rattle.fmap_carry.specs.Moves.{place_in, moves_of, resized, moves_apart, covers, move_rows, moved, lies};

use fmap_rules::{AreaBytes, Extent, FMAP_NAME, ImagePosition};

// Why the preserved areas are not carried.
#[derive(Clone, Copy, PartialEq, Eq)]
pub enum Conflict {
    Missing,
    OtherSize,
    Shared,
    OnMap,
}

// Where a preserved area lies in the old image, and where the area of its name lies in the new one.
#[derive(Clone, Copy, Default)]
struct Move {
    from: Extent,
    to: Extent,
}

fn is_preserved(a: &AreaBytes) -> bool
    ensures { result ≡ preserved (area_of a.now) }
{
    octets::load::<u16, _>(a, 40) / 8 % 2 == 1
}

// Where the area with a name lies.
fn place_of(areas: &[AreaBytes], name: &[u8]) -> Option<Extent>
    ensures { result ≡ place_in (map area_of areas.now) name.now }
{
    let k = fmap_rules::find_named(areas, name)?;
    Some(fmap_rules::extent_of(&areas[k]))
}

// The moves of the preserved areas, in their order; answers how many. No heap: they stand in a lent array. Its index is counted, since a proof
// knows nothing of what is written through `iter_mut`.
fn list_moves(olds: &[AreaBytes], news: &[AreaBytes], moves: &mut [Move]) -> Result<usize, Conflict>
    requires { length olds.now ≤ length moves.old }
    ensures { MatchResult result
        (λ n. (any (missing (map area_of news.now)) (map area_of olds.now) ≡ false) × (n ≤ length moves.new)
        × (take n moves.new ≡ moves_of (map area_of news.now) (map area_of olds.now)))
        (λ e. (e ≡ Conflict.Missing) × (any (missing (map area_of news.now)) (map area_of olds.now) ≡ true)) }
{
    let mut n = 0;
    for a in olds {
        if !is_preserved(a) {
            continue;
        }
        let to = place_of(news, fmap_rules::name_of(a)).ok_or(Conflict::Missing)?;
        moves[n] = Move {
            from: fmap_rules::extent_of(a),
            to,
        };
        n += 1;
    }
    Ok(n)
}

fn some_resized(moves: &[Move]) -> bool
    ensures { result ≡ any resized moves.now }
{
    moves.iter().any(|m| m.from.size != m.to.size)
}

fn all_apart(moves: &[Move]) -> bool
    ensures { result ≡ pairs moves_apart moves.now }
{
    octets::pairs(moves, |m, n| {
        m.from.is_disjoint(n.from) && m.to.is_disjoint(n.to)
    })
}

fn some_on_map(moves: &[Move], map: Extent) -> bool
    ensures { result ≡ any (covers map) moves.now }
{
    moves.iter().any(|m| !m.to.is_disjoint(map))
}

// Judges moves into an image whose map lies in the given place; writes nothing.
fn judge(moves: &[Move], map: Extent) -> Result<(), Conflict>
    ensures { judged_number result ≡ refusal (move_rows map moves.now) }
{
    if some_resized(moves) {
        return Err(Conflict::OtherSize);
    }
    if !all_apart(moves) {
        return Err(Conflict::Shared);
    }
    if some_on_map(moves, map) {
        return Err(Conflict::OnMap);
    }
    Ok(())
}

// The moves that a carry by the areas of two maps makes; answers how many.
fn plan(olds: &[AreaBytes], news: &[AreaBytes], moves: &mut [Move]) -> Result<usize, Conflict>
    requires { length olds.now ≤ length moves.old }
    ensures { MatchResult result
        (λ n. (refusal (carry_rows (map area_of olds.now) (map area_of news.now)) ≡ none) × (n ≤ length moves.new)
        × (take n moves.new ≡ moves_of (map area_of news.now) (map area_of olds.now)))
        (λ e. refusal (carry_rows (map area_of olds.now) (map area_of news.now)) ≡ some (number_of e)) }
{
    let n = list_moves(olds, news, moves)?;
    let map = place_of(news, FMAP_NAME).unwrap_or(Extent::default());
    judge(&moves[..n], map)?;
    Ok(n)
}

// Copies the bytes of each move.
fn make_moves(old: &[u8], moves: &[Move], new: &mut [u8])
    requires { all (lies (length old.now) (length new.old)) moves.now ≡ true }
    ensures { new.new ≡ moved old.now moves.now new.old }
{
    for m in moves {
        let from = m.from.start.0 as usize;
        let end = from + m.from.size as usize;
        octets::copy(new, m.to.start.0 as usize, &old[from..end]);
    }
}

// Carries by the good maps at two positions.
pub fn carry_by(
    old: &[u8],
    at: ImagePosition,
    new: &mut [u8],
    bt: ImagePosition,
) -> Result<(), Conflict>
    requires { (good_map old.now at.0 ≡ true) × (good_map new.old bt.0 ≡ true) }
    ensures { record { answer = judged_number result; image = new.new }
        ≡ carry_areas old.now (areas_of (rest at.0 old.now)) new.old (areas_of (rest bt.0 new.old)) }
{
    let mut moves = [Move::default(); 128];
    let n = plan(
        fmap_rules::areas_at(old, at),
        fmap_rules::areas_at(new, bt),
        &mut moves,
    )?;
    make_moves(old, &moves[..n], new);
    Ok(())
}
