ghost use Rattle.std.specs.Prelude.{◌≡◌};

use crate::MasterId;

/// One value for each of the two masters.
#[derive(Clone, Copy, Debug, Drop, PartialEq, Eq)]
pub struct EachMaster<T> {
    /// The primary master's value.
    pub primary: T,
    /// The secondary master's value.
    pub secondary: T,
}

impl<T> EachMaster<T> {
    ghost use Rattle.hart_values.specs.EachMaster.{of_master};

    /// Returns the value of a master.
    pub fn get(&self, master: MasterId) -> &T
        ensures { result.now ≡ of_master master self.now }
    {
        match master {
            MasterId::Primary => &self.primary,
            MasterId::Secondary => &self.secondary,
        }
    }
}

impl<T: Drop> EachMaster<T> {
    ghost use Rattle.hart_values.specs.EachMaster.{with_master};

    /// Sets the value of a master. The other master's value stays the same.
    pub fn set(&mut self, master: MasterId, thing: T)
        ensures { self.new ≡ with_master master thing self.old }
    {
        match master {
            MasterId::Primary => self.primary = thing,
            MasterId::Secondary => self.secondary = thing,
        }
    }
}
