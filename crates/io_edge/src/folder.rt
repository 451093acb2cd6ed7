ghost use Rattle.std.specs.Prelude.{◌≡◌, ◌≢◌, ◌≤◌, ◌<◌, ℕ, List, Option, length, Err, IsOk, IfOk, IfSome};
ghost use Rattle.io_edge.specs.declared.fault.FolderFault.TheVariants.{Failed, TooLong};
ghost use Rattle.io_edge.specs.Rose.{Rose};

use crate::fault::FolderFault;
use std::alloc::Global;

/// A folder of files, which are read whole by their names.
pub trait Folder {
    // The bytes of the file of a name, where the folder tells them.
    ghost told: { Self → List ℕ → Option (List ℕ) };

    // A number for each name, which never falls, and which rises when a read of the name fails.
    ghost faults: { Self → List ℕ → ℕ };

    /// The bytes of the file of this name, where there are at most `limit`.
    fn read(&mut self, alloc: Global, name: &[u8], limit: usize) -> Result<Vec<u8>, FolderFault>
        ensures told { IfSome (told self.old name.now) (λ bs. IfOk result (λ v. (v.items ≡ bs) × (length bs ≤ limit))) }
        ensures long { IfSome (told self.old name.now) (λ bs. (result ≡ Err TooLong → limit < length bs) × (limit < length bs → ¬ IsOk result)) }
        ensures short { IfOk result (λ v. length v.items ≤ limit) }
        ensures same { (n : List ℕ) → told self.new n ≡ told self.old n }
        ensures kept { (n : List ℕ) → faults self.old n ≤ faults self.new n }
        ensures failed { result ≡ Err Failed → Rose (faults self.old name.now) (faults self.new name.now) }
        ensures still { result ≢ Err Failed → (n : List ℕ) → faults self.new n ≡ faults self.old n };
}
