//! Views of buffers, one after another, that are ended together.
ghost use Rattle.std.specs.Prelude.{◌≡◌, ◌+◌, ◌≤◌, count_by, is_some};
ghost use Rattle.unit_pass.specs.declared.pass.TheConstants.{SUPPLY};

use crate::BufView;
use unit_pass::{Pass, SUPPLY};

/// Lets the hold of each view that is there go, from the last to the first. Takes no memory and can't be refused.
#[inline(always)]
pub fn let_go_all(mut views: Vec<Option<BufView>>, pass: &mut Pass)
    requires { pass.old.units + count_by is_some views.items ≤ SUPPLY }
    ensures units { pass.new.units ≡ pass.old.units + count_by is_some views.items }
    ensures blocks { pass.new.blocks ≡ pass.old.blocks }
    ensures nodes { pass.new.nodes ≡ pass.old.nodes }
{
    while let Some(view) = views.pop() {
        if let Some(view) = view {
            let _left = view.let_go(pass);
        }
    }
    views.destroy_empty();
}
