//! The places of clauses by a key.

ghost use Rattle.std.specs.Prelude.{◌≡◌, ◌++◌, ◌∷◌, ◌<◌, [], length, slice_get, Some, IfOk, OnOk};
ghost use Rattle.std.specs.Prelude.{if◌then◌else◌};
ghost use Rattle.tp_clauses.specs.Indexed.{ids_in, keys_in};

use crate::base::ClauseId;
use indexmap::IndexMap;
use std::alloc::Global;
use std::hash::Hash;
use tp_terms::NoMemory;

/// The places of the clauses of each key, in text order.
#[derive(Drop)]
pub struct Index<K: Eq + Hash> {
    places: IndexMap<K, Vec<ClauseId>>,
}

impl<K: Eq + Hash + Copy + Drop> Index<K> {
    /// An index of no clause.
    #[tactic(auto, unfolding(crate::specs::Indexed::ids_in))]
    pub fn new(alloc: Global) -> Self
        ensures { (k : K) → ids_in K.eq result k ≡ [] }
    {
        Index {
            places: IndexMap::new(alloc),
        }
    }

    /// Adds the place of a clause, and answers how many the key had.
    pub fn add(&mut self, alloc: Global, key: K, id: ClauseId) -> Result<usize, NoMemory>
        ensures count { IfOk result (λ count. count ≡ length (ids_in K.eq self.old key)) }
        ensures added { OnOk result ((k : K) → ids_in K.eq self.new k ≡
            (if K.eq key k then ids_in K.eq self.old k ++ id ∷ [] else ids_in K.eq self.old k)) }
    {
        match self.places.get_mut(&key) {
            Some(ids) => {
                let count = ids.len();
                ids.push(id)?;
                Ok(count)
            }
            None => {
                let mut first = Vec::new(alloc);
                first.push(id)?;
                self.places.insert(key, first)?;
                Ok(0)
            }
        }
    }

    /// The places of the clauses of a key.
    #[tactic(auto, unfolding(crate::specs::Indexed::ids_in))]
    pub fn ids(&self, key: K) -> &[ClauseId]
        ensures { result.now ≡ ids_in K.eq self.now key }
    {
        match self.places.get(&key) {
            Some(ids) => ids,
            None => &[],
        }
    }

    /// The number of keys.
    pub fn len(&self) -> usize
        ensures { result ≡ length (keys_in self.now) }
    {
        self.places.len()
    }

    /// A key, and the places of its clauses.
    #[tactic(auto, unfolding(crate::specs::Indexed::ids_in))]
    pub fn entry(&self, at: usize) -> (K, &[ClauseId])
        requires { at < length (keys_in self.now) }
        ensures key { slice_get (keys_in self.now) at ≡ Some result.0 }
        ensures ids { result.1.now ≡ ids_in K.eq self.now result.0 }
    {
        match self.places.get_index(at) {
            Some((key, ids)) => (*key, ids),
            None => unreachable!(),
        }
    }
}
