//! The database.

ghost use Rattle.std.specs.Prelude.{◌≡◌, ◌+◌, ◌<◌, ◌≤◌, ℕ, Some, MatchOption, slice_get, List, ◌∷◌, ◌++◌, [], false, length, IsTrue, IsOk, IfOk, IfErr, OnOk, OnErr};
ghost use Rattle.std.specs.Option.{option_copied};
ghost use Rattle.store.specs.Answers.{IsAnswer};
ghost use Rattle.store.specs.Features.{IsDatabase, feature_of};
ghost use Rattle.store.specs.Operations.{reply, effect, TakesNoMemory};
ghost use Rattle.store.specs.Places.{FeatureIsAt, IsFeatureGap};

use crate::answers::{at_text, count_text, cut_text, document_text, tri_answer, within_text};
use crate::op::{Addition, Op};
use crate::query::Query;
use crate::reply::Reply;
use crate::stored_feature::StoredFeature;
use mfjson::Feature;
use std::alloc::{AllocError, Global};
use std::marker::Model;
use timeindex::TimeIndex;
use tpoint::{Id, Seq};

/// A database has at most this many features.
pub const MOST_FEATURES: usize = 256;

/// Features, at most `MOST_FEATURES`, each with an id of its own.
///
/// They are kept in the byte order of their ids, so one is found by a binary search, and a text
/// that lists them needs no sorting. An index tells which of them are there in a period.
pub struct Db {
    features: Vec<StoredFeature>,
    /// From when to when each feature is.
    index: TimeIndex,
}

// By hand, so that a crate that drops one proves nothing of what lies within.
impl Drop for Db {
    fn drop(self) {
        let Db { features, index } = self;
        drop(features);
        drop(index);
    }
}

impl Model for Db {
    ghost use Rattle.std.specs.Prelude.{List};
    ghost use Rattle.mfjson.specs.declared.feature.Feature.{Feature};
    ghost use Rattle.store.specs.Indexed.{IndexIsKept};

    ghost Value = { List Feature };

    ghost view = { λ db. db.features.items };

    ghost invariant = { λ db. IndexIsKept db.features.items db.index };
}

impl Db {
    /// The database without features.
    pub fn new(alloc: Global) -> Db
        ensures { result ≡ [] }
    {
        Db {
            features: Vec::new(alloc),
            index: TimeIndex::new(alloc),
        }
    }

    /// Carries out an operation, and tells its reply. Where a growth was refused the database is as
    /// it was. A removal grows nothing, nor does what is refused.
    pub fn apply(&mut self, op: &Op) -> Result<Reply, AllocError>
        ensures reply { IfOk result (λ told. told ≡ reply self.old op.now) }
        ensures effect { OnOk result (self.new ≡ effect self.old op.now) }
        ensures database { IsDatabase self.new }
        ensures err { OnErr result (self.new ≡ self.old) }
        ensures in_place { TakesNoMemory self.old op.now → IsOk result }
    {
        let told = match op {
            Op::Put(id, seq) => self.put(id, seq),
            Op::Append(addition) => self.append(addition),
            Op::Remove(id) => Ok(self.remove(id)),
        };
        // Read, so that callers know that the features are a database.
        let _features = &self.features;
        told
    }

    /// The text that a query is answered.
    pub fn answer(&self, alloc: Global, query: &Query) -> Result<Vec<u8>, AllocError>
        ensures { IfOk result (λ text. IsAnswer self.now query.now text.items) }
    {
        match query {
            Query::At(id, t) => at_text(alloc, self.found(id), *t),
            Query::Cut(id, period) => cut_text(alloc, self.found(id), period),
            Query::Ever(id, period, area) => {
                let answer = self.held(id).map(|held| held.ever(period, area));
                tri_answer(alloc, b"ever ", answer)
            }
            Query::Always(id, period, area) => {
                let answer = self.held(id).map(|held| held.always(period, area));
                tri_answer(alloc, b"always ", answer)
            }
            Query::Within(period, area) => {
                within_text(alloc, &self.features, &self.index, period, area)
            }
            Query::Get(id) => document_text(alloc, self.found(id)),
            Query::Count => count_text(alloc, self.features.len()),
        }
    }

    /// How many features there are.
    pub fn len(&self) -> u32
        ensures value { result ≡ length self.now }
        ensures database { IsDatabase self.now }
    {
        // At most `MOST_FEATURES`, so none is lost.
        self.features.len() as u32
    }

    /// The feature at a place of the byte order of ids, from 0 on, or None behind the last.
    pub fn feature(&self, at: u32) -> Option<(&Id, &Seq)>
        ensures { MatchOption result (length self.now ≤ at)
            (λ f. slice_get self.now at ≡ Some (record { id = f.0.now; seq = f.1.now })) }
    {
        let feature = self.features.get(at as usize)?.feature();
        Some((&feature.id, &feature.seq))
    }

    /// Adds a feature whose id comes after those of all others. Its sequence is taken as it is. Where
    /// a growth was refused the database is as it was.
    pub fn push(&mut self, id: Id, seq: Seq) -> Result<(), AllocError>
        requires room { length self.old < MOST_FEATURES }
        requires last { IsFeatureGap self.old id (length self.old) }
        ensures added { OnOk result (self.new ≡ self.old ++ record { id = id; seq = seq } ∷ []) }
        ensures err { OnErr result (self.new ≡ self.old) }
    {
        // All that grows is grown before the features change.
        self.features.try_reserve(1)?;
        let span = seq.span();
        let held = StoredFeature::holding(*self.features.allocator(), id, seq)?;
        self.index
            .insert_at(self.features.len(), id, span.begin(), span.end())?;
        // It has its room, so nothing is refused.
        let _ = self.features.push(held);
        Ok(())
    }

    fn put(&mut self, id: &Id, seq: &Seq) -> Result<Reply, AllocError>
        ensures reply { IfOk result (λ told. told ≡ reply self.old (Op.Put id.now seq.now)) }
        ensures effect { OnOk result (self.new ≡ effect self.old (Op.Put id.now seq.now)) }
        ensures err { OnErr result (self.new ≡ self.old) }
        ensures in_place { TakesNoMemory self.old (Op.Put id.now seq.now) → IsOk result }
    {
        match self.place(id) {
            Ok(at) => {
                self.replace(at, seq)?;
                Ok(Reply::Done)
            }
            Err(at) => {
                if self.features.len() == MOST_FEATURES {
                    return Ok(Reply::TooMany);
                }
                self.add(at, id, seq)?;
                Ok(Reply::Done)
            }
        }
    }

    /// Gives the feature at a place another sequence.
    fn replace(&mut self, at: usize, seq: &Seq) -> Result<(), AllocError>
        requires { at < length self.old }
        ensures effect { OnOk result ((id : List ℕ) → FeatureIsAt self.old id at
            → self.new ≡ effect self.old (Op.Put id seq.now)) }
        ensures err { OnErr result (self.new ≡ self.old) }
    {
        let seq = seq.clone()?;
        let span = seq.span();
        self.features[at].set_seq(seq);
        self.index.replace(at, span.begin(), span.end());
        Ok(())
    }

    /// Puts a feature into the gap where it goes.
    fn add(&mut self, at: usize, id: &Id, seq: &Seq) -> Result<(), AllocError>
        requires gap { IsFeatureGap self.old id.now at }
        requires room { length self.old < MOST_FEATURES }
        ensures effect { OnOk result (self.new ≡ effect self.old (Op.Put id.now seq.now)) }
        ensures err { OnErr result (self.new ≡ self.old) }
    {
        // All that grows is grown before the features change.
        self.features.try_reserve(1)?;
        let held = StoredFeature::new(*self.features.allocator(), *id, seq)?;
        let span = seq.span();
        self.index.insert_at(at, *id, span.begin(), span.end())?;
        // It has its room, so nothing is refused.
        let _ = self.features.insert(at, held);
        Ok(())
    }

    fn append(&mut self, addition: &Addition) -> Result<Reply, AllocError>
        ensures reply { IfOk result (λ told. told ≡ reply self.old (Op.Append addition.now)) }
        ensures effect { OnOk result (self.new ≡ effect self.old (Op.Append addition.now)) }
        ensures err { OnErr result (self.new ≡ self.old) }
        ensures in_place { TakesNoMemory self.old (Op.Append addition.now) → IsOk result }
    {
        let Ok(at) = self.place(addition.id()) else {
            return Ok(Reply::Unknown);
        };
        let held = &mut self.features[at];
        let told = held.append(addition.point())?;
        let span = held.feature().seq.span();
        self.index.replace(at, span.begin(), span.end());
        Ok(told)
    }

    fn remove(&mut self, id: &Id) -> Reply
        ensures reply { result ≡ reply self.old (Op.Remove id.now) }
        ensures effect { self.new ≡ effect self.old (Op.Remove id.now) }
    {
        let Ok(at) = self.place(id) else {
            return Reply::Unknown;
        };
        self.features.remove(at);
        self.index.remove_at(at);
        Reply::Done
    }

    /// The feature with the id.
    fn found(&self, id: &Id) -> Option<&Feature>
        ensures { option_copied result ≡ feature_of self.now id.now }
    {
        match self.held(id) {
            Some(held) => Some(held.feature()),
            None => None,
        }
    }

    /// What is held with the id.
    fn held(&self, id: &Id) -> Option<&StoredFeature>
        ensures { option_copied result ≡ feature_of self.now id.now }
    {
        match self.place(id) {
            Ok(at) => Some(&self.features[at]),
            Err(_) => None,
        }
    }

    /// The place of the feature with the id, or the place where it would go.
    fn place(&self, id: &Id) -> Result<usize, usize>
        ensures found { IfOk result (FeatureIsAt self.now id.now) }
        ensures absent { IfErr result (IsFeatureGap self.now id.now) }
    {
        self.features
            .binary_search_by_key(id, |held| held.feature().id)
    }
}
