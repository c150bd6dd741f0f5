//! Which rows a campaign has, and which faults are theirs.

ghost use Rattle.std.specs.Prelude.{◌≡◌, ◌<◌, ◌≤◌, ◌∷◌, ◌*◌, ◌-◌, ◌^◌, [], IfOk, length, slice_index_or};
ghost use Rattle.std.specs.Option.{option_map_or};
ghost use Rattle.lin_tool.specs.campaign.Rows.{ArePartsJoined, IsPart, bound, drawn, pairs_of_places, pairs_in, places_of};
ghost use Rattle.lin_tool.specs.campaign.Rows.{random_set, random_sets, rows};

use std::alloc::{AllocError, Global};

/// Random sets of single faults: `--random`, `--seed` and `--rate`.
#[derive(Clone, Copy, Debug)]
pub struct RandomSets {
    /// How many sets, 1 to 1,000,000,000.
    pub count: u32,
    pub seed: u64,
    /// How many of 1,000 single faults are in a set, 1 to 1,000.
    pub rate: u16,
}

/// The part of the rows that is written: the `number`-th of `count`, from 1.
#[derive(Clone, Copy, Debug)]
pub struct CampaignPart {
    pub number: u32,
    pub count: u32,
}

impl CampaignPart {
    /// The nearest part that there is.
    pub(crate) fn within_limits(self) -> CampaignPart
        ensures part { IsPart result }
        ensures same { IsPart self → result ≡ self }
    {
        let count = self.count.max(1);
        CampaignPart {
            number: self.number.clamp(1, count),
            count,
        }
    }
}

/// Which rows a campaign has: the undisturbed play, each single fault, each two of them, random sets.
#[derive(Clone, Copy)]
pub(crate) struct Rows {
    pub(crate) singles: usize,
    pub(crate) pairs: bool,
    pub(crate) random: Option<RandomSets>,
}

/// Returns the random number at a place: SplitMix64 (Steele, Lea and Flood, 2014).
fn drawn(seed: u64, place: u64) -> u64
    ensures { result ≡ drawn seed place }
{
    let x = seed.wrapping_add(place.wrapping_add(1).wrapping_mul(0x9E37_79B9_7F4A_7C15));
    let y = (x ^ (x >> 30)).wrapping_mul(0xBF58_476D_1CE4_E5B9);
    let z = (y ^ (y >> 27)).wrapping_mul(0x94D0_49BB_1331_11EB);
    z ^ (z >> 31)
}

/// Returns how many pairs a number of single faults has.
fn pairs_of(singles: usize) -> u64
    requires { singles ≤ 33000000 }
    ensures count { result ≡ length (pairs_of_places singles) }
    ensures few { result ≤ 1089000000000000 }
{
    let count = singles as u64;
    count * count.saturating_sub(1) / 2
}

/// Returns the places of the two single faults of a pair, by the first and then by the second.
fn pair_at(singles: usize, pair: u64) -> (usize, usize)
    requires { pair < length (pairs_of_places singles) }
    ensures { slice_index_or (pairs_of_places singles) pair [] ≡ result.0 ∷ result.1 ∷ [] }
{
    let mut left = pair;
    for first in 0..singles {
        let behind = (singles - 1 - first) as u64;
        if left < behind {
            return (first, first + 1 + left as usize);
        }
        left -= behind;
    }
    (0, 0)
}

impl RandomSets {
    /// How many sets.
    fn sets(self) -> u64
        ensures count { result ≡ self.count }
        ensures few { result < 2 ^ 32 }
    {
        u64::from(self.count)
    }
}

impl Rows {
    /// How many pairs there are.
    fn pairs(&self) -> u64
        requires { self.now.singles ≤ 33000000 }
        ensures count { result ≡ length (pairs_in self.now) }
        ensures few { result ≤ 1089000000000000 }
    {
        if self.pairs {
            pairs_of(self.singles)
        } else {
            0
        }
    }

    /// How many random sets there are.
    fn sets(&self) -> u64
        ensures count { result ≡ length (random_sets self.now.random self.now.singles) }
        ensures few { result < 2 ^ 32 }
    {
        match self.random {
            Some(random) => random.sets(),
            None => 0,
        }
    }

    /// How many rows there are.
    pub(crate) fn count(&self) -> u64
        requires { self.now.singles ≤ 33000000 }
        ensures { result ≡ length (rows self.now) }
    {
        1 + self.singles as u64 + self.pairs() + self.sets()
    }

    /// Returns the first row of a part, or the one after its last row.
    pub(crate) fn bound(&self, parts_before: u32, part: CampaignPart) -> u64
        requires some { 1 ≤ part.count }
        requires before { parts_before ≤ part.count }
        requires few { self.now.singles ≤ 33000000 }
        ensures { result ≡ bound (length (rows self.now)) parts_before part.count }
    {
        let rows = u128::from(self.count()) * u128::from(parts_before);
        match rows.checked_div(u128::from(part.count)) {
            Some(bound) => bound as u64,
            None => 0,
        }
    }

    /// Returns the number of the first row of a part, and the number after its last one.
    pub(crate) fn bounds(&self, part: CampaignPart) -> (u64, u64)
        requires part { IsPart part }
        requires few { self.now.singles ≤ 33000000 }
        ensures first { result.0 ≡ bound (length (rows self.now)) (part.number - 1) part.count }
        ensures end { result.1 ≡ bound (length (rows self.now)) part.number part.count }
        ensures order { result.0 ≤ result.1 }
        ensures within { result.1 ≤ length (rows self.now) }
    {
        let before = part.number.saturating_sub(1);
        (self.bound(before, part), self.bound(part.number, part))
    }

    /// Returns the places of the single faults in a random set.
    fn random_set(&self, alloc: Global, set: u64) -> Result<Vec<usize>, AllocError>
        ensures { IfOk result (λ v. v.items
            ≡ option_map_or (λ r. random_set r self.now.singles set) self.now.random []) }
    {
        let mut places = Vec::new(alloc);
        let Some(random) = self.random else {
            return Ok(places);
        };
        let from = set.wrapping_mul(self.singles as u64);
        for place in 0..self.singles {
            if drawn(random.seed, from.wrapping_add(place as u64)) % 1000 < u64::from(random.rate) {
                places.push(place)?;
            }
        }
        Ok(places)
    }

    /// Returns the places of the single faults of a row, counted from 0. An error means out of memory.
    pub(crate) fn places_of(&self, alloc: Global, row: u64) -> Result<Vec<usize>, AllocError>
        requires row { row < length (rows self.now) }
        requires few { self.now.singles ≤ 33000000 }
        ensures { IfOk result (λ v. v.items ≡ places_of self.now row) }
    {
        let singles = self.singles as u64;
        let pairs = self.pairs();
        let mut places = Vec::new(alloc);
        if row == 0 {
            return Ok(places);
        }
        if row <= singles {
            places.push((row - 1) as usize)?;
            return Ok(places);
        }
        if row <= singles + pairs {
            let (first, second) = pair_at(self.singles, row - 1 - singles);
            places.push(first)?;
            places.push(second)?;
            return Ok(places);
        }
        self.random_set(alloc, row - 1 - singles - pairs)
    }
}

/// The parts of a list of rows in order are the list.
pub fn parts_are_the_whole()
    ensures { ArePartsJoined }
{}
