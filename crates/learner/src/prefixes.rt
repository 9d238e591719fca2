//! What the prefix of a learner is.

ghost use Rattle.std.specs.Prelude.{◌≡◌, ℕ, ◌≤◌};
ghost use Rattle.synod.specs.declared.slot.TheConstants.{SLOTS};
ghost use Rattle.learner.specs.Learning.{Learning, prefix};
ghost use Rattle.learner.specs.Prefixes.{IsPrefix};

/// The prefix is the first slot that isn't learnt, of those that are kept, and no other slot is.
///
/// The law is the contract of a function that does nothing.
pub fn prefix_is_first_unlearnt()
    ensures is { (l : Learning) → l.first ≤ SLOTS → IsPrefix l.learnt l.first (prefix l) }
    ensures only { (l : Learning) (p : ℕ) → IsPrefix l.learnt l.first p → p ≡ prefix l }
{}
