ghost use Rattle.std.specs.Prelude.{◌≡◌, ◌≤◌, ◌+◌, ◌++◌, ◌∷◌, length, drop, slice_index, cond, ◌-◌};
ghost use Rattle.place_index.specs.Index.{first_square};
ghost use Rattle.place_index.specs.Material.{count_of, pieces_of};
ghost use Rattle.place_index.specs.Men.{squares_of};
ghost use Rattle.place_index.specs.Others.{free_set_number};
ghost use Rattle.place_index.specs.Shape.{group, is_pawn_code, runs};

use crate::indexing::Turned;
use crate::numbers::{free_number, free_set_number};
use crate::piece_code::PieceCode;
use crate::short_lists::Earlier;
use arrayvec::ArrayVec;

/// Men of a table that share one number: the leading group, or a run of equal men.
#[derive(Clone, Copy, PartialEq, Eq, Default, Debug)]
pub struct Group {
    /// What the first man is.
    pub code: PieceCode,

    /// How many men there are.
    pub men: u8,
}

impl Group {
    /// The first square that its men may stand on: pawns begin on the second rank.
    pub(crate) fn first_square(&self) -> u8
        ensures { result ≡ first_square self.now.code }
    {
        if self.code.is_pawn() { 8 } else { 0 }
    }

    /// How many squares its men may take, after this many leading men and with this many squares free. Pawns that don't
    /// lead have the 48 squares of pawns less those of the leading ones.
    pub(crate) fn squares(&self, lead: u8, free: u8) -> u8
        requires { lead ≤ 3 }
        ensures { result ≡ cond (is_pawn_code self.now.code) (48 - lead) free }
    {
        if self.code.is_pawn() { 48 - lead } else { free }
    }
}

/// The leading group of this many men, then the runs of equal pieces after it.
pub(crate) fn groups(lead: u8, pieces: &[PieceCode]) -> ArrayVec<Group, 5>
    requires some { 1 ≤ lead }
    requires lead { lead ≤ length pieces.now }
    requires few { length pieces.now ≤ 5 }
    ensures { result.items ≡ group (slice_index pieces.now 0) lead ∷ runs (drop lead pieces.now) }
{
    let mut groups = ArrayVec::<Group, 5>::new();
    groups.push(Group {
        code: pieces[0],
        men: lead,
    });
    let mut start = lead as usize;
    for i in lead as usize..pieces.len() {
        if i + 1 < pieces.len() && pieces[i + 1] == pieces[i] {
            continue;
        }
        groups.push(Group {
            code: pieces[i],
            men: (i + 1 - start) as u8,
        });
        start = i + 1;
    }
    groups
}

/// The number of one of the groups after the leading one, after earlier men, among whom its men are then.
pub(crate) fn number_group(turned: &Turned, group: Group, earlier: &mut Earlier) -> u64
    requires once { group.men ≡ 1 → count_of (pieces_of turned.now.shape.material) group.code ≡ 1 }
    requires room { length earlier.old + length (squares_of turned.now.men group.code) ≤ 5 }
    ensures number { result ≡ free_set_number (first_square group.code) earlier.old (squares_of turned.now.men group.code) }
    ensures earlier { earlier.new ≡ earlier.old ++ squares_of turned.now.men group.code }
{
    let first = group.first_square();
    if group.men != 1 {
        let squares = turned.squares_of(group.code);
        return free_set_number(first, earlier, squares.as_slice());
    }
    let square = turned.square_of(group.code);
    let number = free_number(first, earlier, square);
    earlier.push(square);
    number
}
