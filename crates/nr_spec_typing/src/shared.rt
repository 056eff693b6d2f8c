//! Lists that stand in several places at no cost.

ghost use Rattle.std.specs.Prelude.{◌≡◌, IfOk};
ghost use Rattle.std.specs.Rc.{rc_slice_items};

use std::alloc::{AllocError, Global};
use std::marker::Model;
use std::rc::RcSlice;

/// A list that is never changed, in several places at once. Sharing it copies nothing.
#[derive(Debug, Drop)]
pub struct Shared<T> {
    items: RcSlice<T>,
}

impl<T> Model for Shared<T> {
    ghost use Rattle.std.specs.Prelude.{List};
    ghost use Rattle.std.specs.Rc.{rc_slice_items};
    ghost use Rattle.std.specs.Coded.{coded_list};

    ghost Value = { List T };

    ghost coded = { coded_list T.code };

    ghost view = { λ s. rc_slice_items s.items };
}

impl<T: Drop> Shared<T> {
    /// The list of these items.
    pub fn from_vec(items: Vec<T>) -> Result<Shared<T>, AllocError>
        ensures { IfOk result (λ list. list ≡ items.items) }
    {
        Ok(Shared {
            items: RcSlice::from_vec(items)?,
        })
    }

    /// The same list once more. An error where it stands in more places than can be counted.
    pub fn share(&self) -> Result<Shared<T>, AllocError>
        ensures { IfOk result (λ list. list ≡ self.now) }
    {
        Ok(Shared {
            items: self.items.clone()?,
        })
    }
}

impl<T> Shared<T> {
    /// Its items.
    pub fn as_slice(&self) -> &[T]
        ensures { result.now ≡ self.now }
    {
        self.items.as_slice()
    }
}
