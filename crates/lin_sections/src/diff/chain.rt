//! The moved entries of a schedule table: the entries outside a longest chain of entries whose order is the
//! same in both tables.

ghost use Rattle.std.specs.Prelude.{◌≡◌, ◌+◌, ◌<◌, ◌≤◌, ℕ, All, IfOk, IfSome, fold, length, max, slice_index};
ghost use Rattle.lin_sections.specs.Moved.{chain_lengths, is_below, link, longest_before, moved_flags};

use std::alloc::{AllocError, Global};

/// Returns the greatest length of the chains that end at a lower place than `place`. No length is greater
/// than `most`.
fn longest_before(places: &[usize], lengths: &[usize], place: usize, most: usize) -> usize
    requires within { length lengths.now ≤ length places.now }
    requires most { All (λ n. n ≤ most) lengths.now }
    ensures value { result ≡ longest_before place places.now lengths.now }
    ensures few { result ≤ most }
{
    let mut longest = 0usize;
    let mut left = lengths.len();
    while left > 0 && longest < most {
        left -= 1;
        if places[left] < place {
            longest = longest.max(lengths[left]);
        }
    }
    longest
}

/// Returns the length of the longest chain that ends with each pair. `places` has the places in the old
/// table.
fn chain_lengths(alloc: Global, places: &[usize]) -> Result<Vec<usize>, AllocError>
    ensures lengths { IfOk result (λ all. all.items ≡ chain_lengths places.now) }
    ensures number { IfOk result (λ all. length all.items ≡ length places.now) }
    ensures short { IfOk result (λ all. (i : ℕ) → i < length all.items → slice_index all.items i ≤ i + 1) }
{
    let mut lengths = Vec::new(alloc);
    let mut most = 0usize;
    for place in places {
        let length = longest_before(places, lengths.as_slice(), *place, most) + 1;
        most = most.max(length);
        lengths.push(length)?;
    }
    Ok(lengths)
}

fn greatest(numbers: &[usize]) -> usize
    ensures { result ≡ fold max 0 numbers.now }
{
    let mut most = 0usize;
    for number in numbers {
        most = most.max(*number);
    }
    most
}

fn is_below(place: usize, end: Option<usize>) -> bool
    ensures { result ≡ is_below place end }
{
    match end {
        None => true,
        Some(end) => place < end,
    }
}

/// Returns the first of `count` pairs that ends a chain of `links` links below the place `end`. A chain of
/// n links ends with the n-th pair or a later one.
fn link(
    places: &[usize],
    lengths: &[usize],
    links: usize,
    count: usize,
    end: Option<usize>,
) -> Option<usize>
    requires same { length places.now ≡ length lengths.now }
    requires count { count ≤ length places.now }
    requires short { (i : ℕ) → i < length lengths.now → slice_index lengths.now i ≤ i + 1 }
    ensures found { result ≡ link places.now lengths.now links count end }
    ensures within { IfSome result (λ number. number < count) }
{
    let mut number = links.saturating_sub(1);
    while number < count {
        if lengths[number] == links && is_below(places[number], end) {
            return Some(number);
        }
        number += 1;
    }
    None
}

/// Returns for each pair of entries whether it was moved. The number of moved pairs is as small as
/// possible. `places` has their places in the old table, in the order of the new table.
pub(crate) fn moved(alloc: Global, places: &[usize]) -> Result<Vec<bool>, AllocError>
    ensures { IfOk result (λ all. all.items ≡ moved_flags places.now) }
{
    let lengths = chain_lengths(alloc, places)?;
    let mut moved = Vec::new(alloc);
    for _place in places {
        moved.push(true)?;
    }
    let mut links = greatest(lengths.as_slice());
    let mut count = places.len();
    let mut end = None;
    while links > 0 {
        match link(places, lengths.as_slice(), links, count, end) {
            Some(number) => {
                moved[number] = false;
                count = number;
                end = Some(places[number]);
                links -= 1;
            }
            None => return Ok(moved),
        }
    }
    Ok(moved)
}
