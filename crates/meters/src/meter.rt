//! The interface of a meter.
ghost use Rattle.std.specs.Prelude.{◌≡◌, ◌++◌, [], ◌∷◌, List, ℕ, OnOk, OnErr};
ghost use Rattle.exchange_events.specs.declared.record.CallRecord.{CallRecord};

use exchange_events::CallRecord;
use std::alloc::AllocError;

/// A recorder of calls with a summary of them.
///
/// Each type defines the lists of calls that a meter represents, and its text after further calls. The summary is its
/// text after no further calls.
pub trait Meter: Drop {
    /// The meter represents this list of calls: those that it recorded, in order.
    ghost stands: { Self → List CallRecord → Type 0 };

    /// Its text after these further calls.
    ghost text: { Self → List CallRecord → List ℕ };

    /// Records one more call.
    ///
    /// # Errors
    ///
    /// [`AllocError`] if an allocation fails. The meter is then unchanged.
    fn note(&mut self, told: &CallRecord) -> Result<(), AllocError>
        ensures stands { OnOk result ((calls : List CallRecord) → stands self.old calls → stands self.new (calls ++ told.now ∷ [])) }
        ensures text { OnOk result ((calls : List CallRecord) → text self.new calls ≡ text self.old (told.now ∷ calls)) }
        ensures kept { OnErr result (self.new ≡ self.old) };

    /// Appends the meter's text.
    ///
    /// # Errors
    ///
    /// [`AllocError`] if an allocation fails. Then `out` is unchanged.
    fn summary(&self, out: &mut Vec<u8>) -> Result<(), AllocError>
        ensures text { OnOk result (out.new.items ≡ out.old.items ++ text self.now []) }
        ensures kept { OnErr result (out.new.items ≡ out.old.items) };
}
