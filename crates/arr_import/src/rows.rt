//! The rows of a struct column.
ghost use Rattle.std.specs.Prelude.{◌≡◌, ℕ, ◌+◌, All, IfOk, length, map};
ghost use Rattle.tree_model.specs.promise.TreeParts.{children_of};
ghost use Rattle.layout_rules.specs.promise.Values.{row_items};
ghost use Rattle.arr_import.specs.Window.{IsStruct, item_at};
ghost use Rattle.arr_import.specs.Cols.{window_of};

use crate::col::Col;
use data_types::kinds_of_typed;
use layout_rules::{lawful_has_no_fault, lawful_root};
use std::alloc::Global;
use unit_pass::NoMemory;

impl<'a> Col<'a> {
    /// A law: a row of a struct has an item of each child ("Struct Layout"). The call does nothing.
    pub fn rows_are_whole(&self)
        requires { IsStruct (window_of self.now).typed }
        ensures { (i : ℕ) → length (row_items (window_of self.now).typed (window_of self.now).array ((window_of self.now).start + i))
            ≡ length (children_of (window_of self.now).typed) }
    {
        kinds_of_typed(self.typed);
        lawful_has_no_fault(self.typed, self.array);
        lawful_root(self.typed, self.array);
    }

    /// The columns of a struct's fields, over its window, in their order.
    pub fn columns(&self, alloc: Global) -> Result<Vec<Col<'a>>, NoMemory>
        requires { IsStruct (window_of self.now).typed }
        ensures rows { IfOk result (λ columns. (i : ℕ) → map (λ c. item_at (window_of c) i) columns.items
            ≡ row_items (window_of self.now).typed (window_of self.now).array ((window_of self.now).start + i)) }
        ensures counts { IfOk result (λ columns. All (λ c. (window_of c).count ≡ (window_of self.now).count) columns.items) }
    {
        self.rows_are_whole();
        let mut columns = Vec::new(alloc);
        for k in 0..self.n_children() {
            columns.push(self.child(k))?;
        }
        Ok(columns)
    }
}
