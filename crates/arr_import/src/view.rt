//! Views, read in place ("Arrow Columnar Format", "Variable-size binary view layout"): a short item's bytes are in its
//! view, a long one's in the data buffer that its view names.
ghost use Rattle.std.specs.Prelude.{◌≡◌, true, pos, ◌+◌, ◌*◌, ◌<◌, ◌≤◌, length};
ghost use Rattle.data_types.specs.promise.Packed.{meant, number_at};
ghost use Rattle.raw_array.specs.promise.Members.{members_of};
ghost use Rattle.tree_model.specs.promise.TreeParts.{IsLive};
ghost use Rattle.layout_rules.specs.promise.Layout.{is_valid as is_valid_at, view_width};
ghost use Rattle.layout_rules.specs.promise.Views.{view_data};
ghost use Rattle.layout_rules.specs.Within.{DataWithin};
ghost use Rattle.arr_import.specs.StoredItems.{IsViewStorage};

use crate::col::{Col, buffer_bytes};
use bit_pack::offset_at;
use data_types::kinds_of_typed;
use layout_rules::{lawful_has_no_fault, lawful_items_lie_within, lawful_root};

/// The longest item that is in its view.
const MOST_IN_VIEW: i64 = 12;

/// One of the four numbers of a view.
#[inline(always)]
fn view_word(views: &[u8], place: u64, word: usize) -> i64
    requires there { (place + 1) * view_width ≤ length views.now }
    requires four { word < 4 }
    ensures { result ≡ meant 4 true (number_at views.now ((place * 4 + word) * 4) 4) }
{
    offset_at(views, place as usize * 4 + word, false)
}

impl<'a> Col<'a> {
    /// Where the data of a valid view are.
    fn view_is_there(&self, i: u64)
        requires inside { i < self.now.count }
        requires view { IsViewStorage self.now.storage }
        requires valid { is_valid_at (members_of self.now.array.now) (self.now.start + i) ≡ true }
        ensures live { IsLive self.now.array.now }
        ensures within { DataWithin (members_of self.now.array.now) (self.now.start + i) }
    {
        kinds_of_typed(self.typed);
        lawful_has_no_fault(self.typed, self.array);
        lawful_root(self.typed, self.array);
        lawful_items_lie_within(self.typed, self.array);
    }

    /// The bytes of a valid view.
    pub(crate) fn view(&self, i: u64) -> &'a [u8]
        requires inside { i < self.now.count }
        requires storage { IsViewStorage self.now.storage }
        requires valid { is_valid_at (members_of self.now.array.now) (self.now.start + i) ≡ true }
        ensures { result.now ≡ view_data (members_of self.now.array.now) (self.now.start + i) }
    {
        self.item_is_there(i);
        self.view_is_there(i);
        let place = self.place(i);
        let size = view_word(self.stored, place, 0);
        if size > MOST_IN_VIEW {
            let buffer = view_word(self.stored, place, 2) as usize + 2;
            let from = view_word(self.stored, place, 3) as usize;
            &buffer_bytes(self.array, buffer)[from..from + size as usize]
        } else {
            let from = place as usize * 16 + 4;
            &self.stored[from..from + size as usize]
        }
    }
}
