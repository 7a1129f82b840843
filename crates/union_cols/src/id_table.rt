//! The numbers of a union's children by their type ids.
ghost use Rattle.std.specs.Prelude.{◌≡◌, ◌==◌, ℕ, ◌<◌, ◌≤◌, get_or, position, None};
ghost use Rattle.union_cols.specs.IdTables.{entry};
ghost use Rattle.std.proofs.Props.{props};

/// No child has the id.
const NONE: u8 = 255;

/// The number of the child that has each id from 0 to 127, or none.
#[derive(Clone, Copy)]
pub(crate) struct IdTable<'a> {
    ids: &'a [u8],
    places: [u8; 128],
    ghost entries: { (id : ℕ) → id < 128 → entry (get_or places id 0) ≡ position (λ known. known == id) ids.now } by { Prim.hlevel props },
    ghost above: { (id : ℕ) → 128 ≤ id → position (λ known. known == id) ids.now ≡ None } by { Prim.hlevel props },
}

impl<'a> IdTable<'a> {
    ghost use Rattle.std.specs.Prelude.{Option};
    ghost use Rattle.union_cols.specs.promise.Unions.{child_of};
    ghost use Rattle.union_cols.specs.promise.UnionFormats.{AreIds};

    /// The table of distinct ids, each of at most 127, in the order of the children.
    pub(crate) fn of(ids: &'a [u8]) -> IdTable<'a>
        requires { AreIds ids.now }
        ensures { result.ids.now ≡ ids.now }
    {
        let mut places = [NONE; 128];
        for (k, id) in ids.iter().enumerate() {
            places[*id as usize] = k as u8;
        }
        IdTable { ids, places }
    }

    /// The number of the child that has an id, and none where no child has it.
    #[inline(always)]
    pub(crate) fn child(&self, id: i128) -> Option<usize>
        ensures { result ≡ child_of self.now.ids.now id }
    {
        if id < 0 || id > 127 {
            return None;
        }
        let place = self.places[id as usize];
        if place == NONE {
            None
        } else {
            Some(place as usize)
        }
    }
}
