//! Arrays that have one owner.

ghost use Rattle.std.specs.Prelude.{◌≡◌, ◌<◌, length, IfOk};
ghost use Rattle.std.specs.Borrow.{sem};
ghost use Rattle.dp_value.specs.Owners.{LendsOwn};

use crate::PhpArray;
use crate::value::Columns;
use dp_bytes::Memory;
use std::rc::Rc;

impl PhpArray {
    /// Lends what the array keeps, which has no other owner then: it is copied first where it has others, and takes
    /// memory for nothing else. A removal from what is lent takes none. After a refusal the array is as before.
    pub fn own(&mut self) -> Result<&mut Columns, Memory>
        requires { 0 < length self.old.pairs }
        ensures* writes_back { sem 𝓛 (LendsOwn self.entry result) }
        ensures value { IfOk result (λ own. own.now ≡ self.old) }
    {
        match &mut self.columns {
            Some(columns) => Rc::make_mut(columns),
            None => Err(Memory),
        }
    }
}
