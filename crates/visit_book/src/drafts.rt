// What a desk sends to change the plan.
ghost use Rattle.std.specs.Prelude.{◌≡◌, IfOk};
ghost use Rattle.visit_book.specs.Edits.{most_edits};

use crate::Edit;
use apron_base::{Listed, Memory, Name};
use std::alloc::Global;

/// The most edits of a draft; the least is 1.
pub const MAX_EDITS: usize = 64;

/// Edits that a desk sends together, to be taken as a whole or not at all.
#[derive(Debug, Drop)]
pub struct Draft {
    /// The desk's name.
    pub desk: Name,
    /// The number that the desk gave it.
    pub number: u32,
    /// The version of the plan over which the desk made it.
    pub base: u32,
    /// The edits, in order.
    pub edits: Listed<Edit>,
}

impl Draft {
    /// The same draft. `Err` if there is no memory for it.
    pub fn copy(&self, alloc: Global) -> Result<Draft, Memory>
        ensures same { IfOk result (λ made. made ≡ self.now) }
    {
        let edits = Vec::from_slice(alloc, self.edits.as_slice())?;
        Ok(Draft {
            desk: self.desk,
            number: self.number,
            base: self.base,
            edits: Listed::from_vec(edits),
        })
    }
}

/// The limit in the code is the number in its definition.
pub fn limit_of_edits_is_as_defined()
    ensures edits { MAX_EDITS ≡ most_edits }
{}
