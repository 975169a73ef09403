//! Where a search for the rows of a name begins.
ghost use Rattle.std.specs.Prelude.{◌≡◌, ◌<◌, ◌-◌, ◌*◌, ◌^◌, length, min, IfOk};
ghost use Rattle.std.specs.Int.{IsNextPowerOfTwo};
ghost use Rattle.av_rules.specs.FirstRows.{hash_of, bucket_of, head_for, AreFirstRows};
ghost use Rattle.av_rules.specs.Views.{table_rows_of};

use crate::row::TableRow;
use std::alloc::{AllocError, Global};

/// Buckets of names, each with the first row whose name falls into it, or with how many rows there are where none does. So the
/// rows before it have other names.
#[derive(Drop)]
pub(crate) struct FirstRows {
    heads: Vec<u32>,
    ghost some: { 0 < length heads.items },
}

/// The whole part of 2^64 over the golden ratio, an odd number whose multiples lie far apart.
const FACTOR: u64 = 0x9E37_79B9_7F4A_7C15;

/// How many bytes of a name are hashed: a longer name takes no longer.
const HASHED: usize = 64;

/// A hash of a name, by its first bytes.
fn hash_of(name: &[u8]) -> u64
    ensures { result ≡ hash_of name.now }
{
    let mut hash = 0u64;
    for byte in &name[..HASHED.min(name.len())] {
        hash = hash.wrapping_add(u64::from(*byte)).wrapping_mul(FACTOR);
    }
    hash
}

/// The bucket of a name, of so many: by the high half of its hash, which each byte reaches.
fn bucket_of(name: &[u8], count: usize) -> usize
    requires { 0 < count }
    ensures value { result ≡ bucket_of count name.now }
    ensures within { result < count }
{
    (hash_of(name) >> 32) as usize & (count - 1)
}

/// Where a row stands, or the highest number of 32 bits where they do not hold it: a search may begin sooner than it need.
fn in_32_bits(row: usize) -> u32
    ensures { result ≡ min row (2 ^ 32 - 1) }
{
    row.min(u32::MAX as usize) as u32
}

/// The first row of each bucket.
pub(crate) fn first_rows(alloc: Global, rows: &[TableRow]) -> Result<FirstRows, AllocError>
    ensures first { IfOk result (λ first. AreFirstRows (table_rows_of rows.now) first.heads.items) }
    ensures many { IfOk result (λ first. IsNextPowerOfTwo (8 * length rows.now)
        (length first.heads.items)) }
{
    let count = (8 * rows.len()).next_power_of_two();
    let mut heads = vec![in alloc; in_32_bits(rows.len()); count]?;
    // From the last row to the first: the first of a bucket stays, and no names are compared.
    for index in (0..rows.len()).rev() {
        let bucket = bucket_of(rows[index].name.as_slice(), count);
        heads[bucket] = in_32_bits(index);
    }
    Ok(FirstRows { heads })
}

impl FirstRows {
    /// The head of a name's bucket: no row before it has that name.
    pub(crate) fn head(&self, name: &[u8]) -> usize
        ensures { result ≡ head_for self.now.heads.items name.now }
    {
        self.heads[bucket_of(name, self.heads.len())] as usize
    }
}
