//! What takes a text in parts.

ghost use Rattle.std.specs.Prelude.{⊤, List, ℕ, OnErr, OnOk};

use std::io;

/// What takes a text in parts, one after the other.
///
/// Its meaning is what a part makes of it, and what is known of it once it has refused one.
pub trait Sink {
    /// What taking these bytes may make of it.
    ghost takes: { Self → List ℕ → Self → Type 0 };

    /// It has refused a part.
    ghost HasFailed: { Self → Type 0 };

    /// Takes the bytes, all of them.
    fn take(&mut self, bytes: &[u8]) -> io::Result<()>
        ensures taken { OnOk result (takes self.old bytes.now self.new) }
        ensures refused { OnErr result (HasFailed self.new) };
}

impl Sink for Vec<u8> {
    ghost use Rattle.std.specs.Prelude.{◌≡◌, ◌++◌, ⊤};

    ghost takes = { λ old bytes new. new.items ≡ old.items ++ bytes };

    // A vector refuses bytes only where it can't grow.
    ghost HasFailed = { λ _. ⊤ };

    fn take(&mut self, bytes: &[u8]) -> io::Result<()> {
        self.extend_from_slice(bytes)?;
        Ok(())
    }
}
