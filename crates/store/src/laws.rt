//! What the definitions imply.
//!
//! A law is the contract of a function that does nothing.

ghost use Rattle.std.specs.Prelude.{◌≡◌, ℕ, List, []};
ghost use Rattle.mfjson.specs.declared.feature.Feature.{Feature};
ghost use Rattle.store.specs.declared.query.Query.{Query};
ghost use Rattle.store.specs.Answers.{IsAnswer};
ghost use Rattle.store.specs.Features.{AreValid, IsDatabase};
ghost use Rattle.store.specs.Operations.{effect, OpIsValid};
ghost use Rattle.store.specs.declared.op.Op.{Op};

use crate::db::MOST_FEATURES;

/// Two texts that answer one query over the same features are equal, byte for byte.
pub fn an_answer_is_one()
    ensures { (fs : List Feature) (q : Query) (a b : List ℕ) → AreValid fs → IsAnswer fs q a → IsAnswer fs q b → a ≡ b }
{}

/// The features are valid at the start, and after each operation that brings what is valid.
pub fn features_stay_valid()
    ensures start { AreValid [] }
    ensures kept { (fs : List Feature) (op : Op) → AreValid fs → OpIsValid op → AreValid (effect fs op) }
{}

/// The features are a database at the start, and after each operation: at most `MOST_FEATURES`, ascending by their ids.
pub fn features_stay_a_database()
    ensures start { IsDatabase [] }
    ensures kept { (fs : List Feature) (op : Op) → IsDatabase fs → IsDatabase (effect fs op) }
{}

/// A database has at most 256 features.
pub fn limits()
    ensures { MOST_FEATURES ≡ 256 }
{}
