//! Keys that are found by their newest places.

ghost use Rattle.std.specs.Prelude.{◌≡◌, ◌+◌, ◌<◌, ◌≤◌, ◌-◌, ◌++◌, ◌∷◌, [], OnErr, OnOk, length, slice_index, take};
ghost use Rattle.std.specs.Option.{ForNone, ForSome};
ghost use Rattle.watch_engine.specs.Chains.{AreChained, AreChains, IsFirst, IsNext, bucket_of, last_place};

use std::alloc::{AllocError, Global};

/// How many buckets the first key opens.
const FIRST_BUCKETS: usize = 8;

/// Keys, the oldest first, and for each bucket of keys a chain of their places, the newest first.
#[derive(Drop)]
pub(crate) struct Chains {
    pub(crate) keys: Vec<u64>,
    /// For each place one more than the place of the next older key of its bucket, or 0.
    pub(crate) links: Vec<usize>,
    /// For each bucket one more than the place of its newest key, or 0.
    pub(crate) heads: Vec<usize>,
    /// How many keys a bucket has on average before the buckets double.
    load: usize,
    ghost chains: { AreChains keys.items links.items heads.items },
}

/// An odd number, 2^64 times the golden ratio: products with it spread keys that are near one another.
const SPREAD: u64 = 0x9e37_79b9_7f4a_7c15;

/// The bucket of a key.
#[inline(always)]
#[tactic(auto, unfolding(crate::specs::Chains::bucket_of))]
pub(crate) fn bucket_of(buckets: usize, key: u64) -> usize
    requires { 0 < buckets }
    ensures is { result ≡ bucket_of buckets key }
    ensures within { result < buckets }
{
    (key.wrapping_mul(SPREAD) >> 32 & (buckets as u64 - 1)) as usize
}

/// Puts the place of a key at the head of its bucket's chain.
pub(crate) fn link(keys: &[u64], links: &mut [usize], heads: &mut [usize], place: usize)
    requires place { place < length keys.now }
    requires links { length links.old ≡ length keys.now }
    requires heads { 0 < length heads.old }
    requires before { AreChained (length heads.old) (take place keys.now) links.old heads.old }
    ensures { AreChained (length heads.old) (take (place + 1) keys.now) links.new heads.new }
{
    let bucket = bucket_of(heads.len(), keys[place]);
    links[place] = heads[bucket];
    heads[bucket] = place + 1;
}

// Makes the chains of all keys anew.
fn link_all(keys: &[u64], links: &mut [usize], heads: &mut [usize])
    requires links { length links.old ≡ length keys.now }
    requires heads { 0 < length heads.old }
    ensures { AreChained (length heads.old) keys.now links.new heads.new }
{
    heads.fill(0);
    for place in 0..keys.len() {
        link(keys, links, heads, place);
    }
}

impl Chains {
    /// Without keys. The buckets double as soon as there are more keys than buckets.
    pub(crate) fn new(alloc: Global) -> Chains
        ensures { result.keys.items ≡ [] }
    {
        Chains::with_load(alloc, 1)
    }

    /// The same with a load: a greater one saves time and memory for each key, and makes walks longer.
    pub(crate) fn with_load(alloc: Global, load: usize) -> Chains
        ensures { result.keys.items ≡ [] }
    {
        Chains {
            keys: Vec::new(alloc),
            links: Vec::new(alloc),
            heads: Vec::new(alloc),
            load,
        }
    }

    // Opens the first buckets.
    fn open(&mut self) -> Result<(), AllocError>
        ensures keys { self.new.keys.items ≡ self.old.keys.items }
        ensures open { OnOk result (0 < length self.new.heads.items) }
    {
        if self.heads.is_empty() {
            self.heads.resize(FIRST_BUCKETS, 0)?;
        }
        Ok(())
    }

    // Doubles the buckets once they have more keys than their load, if there is memory for that.
    fn grow(&mut self)
        ensures { self.new.keys.items ≡ self.old.keys.items }
    {
        let buckets = self.heads.len();
        if self.keys.len() <= buckets.saturating_mul(self.load)
            || self.heads.resize(buckets.saturating_mul(2), 0).is_err()
        {
            return;
        }
        link_all(
            self.keys.as_slice(),
            self.links.as_mut_slice(),
            self.heads.as_mut_slice(),
        );
    }

    /// With a key at the end. At `Err` the keys stay.
    pub(crate) fn push(&mut self, key: u64) -> Result<(), AllocError>
        ensures ok { OnOk result (self.new.keys.items ≡ self.old.keys.items ++ key ∷ []) }
        ensures err { OnErr result (self.new.keys.items ≡ self.old.keys.items) }
    {
        self.open()?;
        self.links.push(0)?;
        if self.keys.push(key).is_err() {
            let _ = self.links.pop();
            return Err(AllocError);
        }
        let place = self.keys.len() - 1;
        link(
            self.keys.as_slice(),
            self.links.as_mut_slice(),
            self.heads.as_mut_slice(),
            place,
        );
        self.grow();
        Ok(())
    }

    /// One more than the newest place of the keys in a key's bucket, or 0 if it has none.
    #[inline(always)]
    pub(crate) fn head(&self, key: u64) -> usize
        ensures { IsFirst (length self.now.heads.items) self.now.keys.items key result }
    {
        if self.heads.is_empty() {
            return 0;
        }
        self.heads[bucket_of(self.heads.len(), key)]
    }

    /// One more than the next older place of the same bucket, from the one of which `at` is one more, or
    /// 0 if there is none.
    #[inline(always)]
    pub(crate) fn older(&self, at: usize) -> usize
        requires some { 0 < at }
        requires within { at ≤ length self.now.keys.items }
        ensures { IsNext (length self.now.heads.items) self.now.keys.items at result }
    {
        self.links[at - 1]
    }

    // Goes down a chain of the key's bucket, from `newest` - 1, to a place of the key: one more than
    // that, or 0 if the chain has none. `None` once the steps are used up, one for each place on the way.
    fn follow(&self, key: u64, newest: usize, steps: &mut usize) -> Option<usize>
        requires within { newest ≤ length self.now.keys.items }
        requires bucket { 0 < newest → bucket_of (length self.now.heads.items)
            (slice_index self.now.keys.items (newest - 1))
            ≡ bucket_of (length self.now.heads.items) key }
        ensures found { ForSome result (λ at.
            at ≡ last_place key (take newest self.now.keys.items)) }
        ensures given_up { ForNone result (steps.new ≡ 0) }
        ensures paid { steps.new ≤ steps.old }
    {
        let mut at = newest;
        while at > 0 {
            if *steps == 0 {
                return None;
            }
            *steps -= 1;
            if self.keys[at - 1] == key {
                return Some(at);
            }
            at = self.links[at - 1];
        }
        Some(0)
    }

    /// One more than the newest place of a key, or 0 if it has none. `None` once the steps are used up.
    pub(crate) fn newest(&self, key: u64, steps: &mut usize) -> Option<usize>
        ensures found { ForSome result (λ at. at ≡ last_place key self.now.keys.items) }
        ensures given_up { ForNone result (steps.new ≡ 0) }
        ensures paid { steps.new ≤ steps.old }
    {
        if self.heads.is_empty() {
            return Some(0);
        }
        let bucket = bucket_of(self.heads.len(), key);
        self.follow(key, self.heads[bucket], steps)
    }

    /// One more than the newest place of the same key before the one of which `place` is one more,
    /// or 0 if there is none. `None` once the steps are used up.
    pub(crate) fn before(&self, place: usize, steps: &mut usize) -> Option<usize>
        requires some { 0 < place }
        requires within { place ≤ length self.now.keys.items }
        ensures found { ForSome result (λ at. at ≡ last_place
            (slice_index self.now.keys.items (place - 1)) (take (place - 1) self.now.keys.items)) }
        ensures given_up { ForNone result (steps.new ≡ 0) }
        ensures paid { steps.new ≤ steps.old }
    {
        self.follow(self.keys[place - 1], self.links[place - 1], steps)
    }
}
