//! The fields of the format: numbers, texts and arrays, each read from the front of the bytes that are left.
ghost use Rattle.std.specs.Prelude.{◌≡◌, ◌<◌, ◌^◌, IfOk};
ghost use Rattle.std.specs.Int.{w8, w16, w32, w64};
ghost use Rattle.av_nbt.specs.Reading.{Gives, front_at, number_at, signed_at, type_at, text_at, length_at, list_length_at, bytes_at, numbers_at, signed_in};

use av_tags::TagType;
use av_types::Fault;
use std::alloc::{AllocError, Global};

/// So many bytes, and those after them.
#[inline]
#[tactic(auto, unfolding(crate::specs::Reading::front_at))]
pub(crate) fn front(bytes: &[u8], count: usize) -> Result<(&[u8], &[u8]), Fault>
    ensures { Gives (λ p. (p.0.now, p.1.now)) result (front_at count bytes.now) }
{
    if bytes.len() < count {
        return Err(Fault::BadNbt);
    }
    Ok(bytes.split_at(count))
}

/// A type's number.
#[inline]
#[tactic(auto, unfolding(crate::specs::Reading::type_at))]
pub(crate) fn tag_type(bytes: &[u8]) -> Result<(TagType, &[u8]), Fault>
    ensures { Gives (λ p. (p.0, p.1.now)) result (type_at bytes.now) }
{
    let Some((number, rest)) = bytes.split_first() else {
        return Err(Fault::BadNbt);
    };
    match TagType::from_number(*number) {
        Some(tag_type) => Ok((tag_type, rest)),
        None => Err(Fault::BadNbt),
    }
}

/// A text's length.
#[inline]
#[tactic(auto, unfolding(crate::specs::Reading::number_at, crate::specs::Reading::front_at))]
pub(crate) fn text_length(bytes: &[u8]) -> Result<(u16, &[u8]), Fault>
    ensures { Gives (λ p. (p.0, p.1.now)) result (number_at w16 bytes.now) }
{
    match bytes.split_first_chunk::<2>() {
        Some((front, rest)) => Ok((u16::from_be_bytes(*front), rest)),
        None => Err(Fault::BadNbt),
    }
}

/// An Int, or the length of a List or an array.
#[inline]
#[tactic(auto, unfolding(crate::specs::Reading::signed_at, crate::specs::Reading::number_at, crate::specs::Reading::front_at))]
pub(crate) fn int(bytes: &[u8]) -> Result<(i32, &[u8]), Fault>
    ensures { Gives (λ p. (p.0, p.1.now)) result (signed_at w32 bytes.now) }
{
    match bytes.split_first_chunk::<4>() {
        Some((front, rest)) => Ok((i32::from_be_bytes(*front), rest)),
        None => Err(Fault::BadNbt),
    }
}

/// A text's bytes, after their length.
#[inline]
#[tactic(auto, unfolding(crate::specs::Reading::text_at))]
pub(crate) fn text(alloc: Global, bytes: &[u8]) -> Result<(Vec<u8>, &[u8]), Fault>
    ensures { Gives (λ p. (p.0.items, p.1.now)) result (text_at bytes.now) }
{
    let (length, rest) = text_length(bytes)?;
    let (text, rest) = front(rest, usize::from(length))?;
    Ok((Vec::from_slice(alloc, text)?, rest))
}

/// An array's length.
#[inline]
#[tactic(auto, unfolding(crate::specs::Reading::length_at))]
pub(crate) fn array_length(bytes: &[u8]) -> Result<(usize, &[u8]), Fault>
    ensures read { Gives (λ p. (p.0, p.1.now)) result (length_at bytes.now) }
    ensures bound { IfOk result (λ p. p.0 < 2 ^ 31) }
{
    let (length, rest) = int(bytes)?;
    if length < 0 {
        return Err(Fault::BadNbt);
    }
    Ok((length as usize, rest))
}

/// A List's length. A negative one is that of an empty List.
#[inline]
#[tactic(auto, unfolding(crate::specs::Reading::list_length_at))]
pub(crate) fn list_length(bytes: &[u8]) -> Result<(usize, &[u8]), Fault>
    ensures { Gives (λ p. (p.0, p.1.now)) result (list_length_at bytes.now) }
{
    let (length, rest) = int(bytes)?;
    if length < 0 {
        Ok((0, rest))
    } else {
        Ok((length as usize, rest))
    }
}

/// An array's bytes, after their number.
#[inline]
#[tactic(auto, unfolding(crate::specs::Reading::bytes_at))]
pub(crate) fn byte_array(alloc: Global, bytes: &[u8]) -> Result<(Vec<u8>, &[u8]), Fault>
    ensures { Gives (λ p. (p.0.items, p.1.now)) result (bytes_at bytes.now) }
{
    let (length, rest) = array_length(bytes)?;
    let (array, rest) = front(rest, length)?;
    Ok((Vec::from_slice(alloc, array)?, rest))
}

/// The number of a Byte.
#[inline]
#[tactic(auto, unfolding(crate::specs::Reading::signed_at, crate::specs::Reading::number_at, crate::specs::Reading::front_at))]
pub(crate) fn byte(bytes: &[u8]) -> Result<(i8, &[u8]), Fault>
    ensures { Gives (λ p. (p.0, p.1.now)) result (signed_at w8 bytes.now) }
{
    match bytes.split_first_chunk::<1>() {
        Some((front, rest)) => Ok((i8::from_be_bytes(*front), rest)),
        None => Err(Fault::BadNbt),
    }
}

/// The number of a Short.
#[inline]
#[tactic(auto, unfolding(crate::specs::Reading::signed_at, crate::specs::Reading::number_at, crate::specs::Reading::front_at))]
pub(crate) fn short(bytes: &[u8]) -> Result<(i16, &[u8]), Fault>
    ensures { Gives (λ p. (p.0, p.1.now)) result (signed_at w16 bytes.now) }
{
    match bytes.split_first_chunk::<2>() {
        Some((front, rest)) => Ok((i16::from_be_bytes(*front), rest)),
        None => Err(Fault::BadNbt),
    }
}

/// The number of a Long.
#[inline]
#[tactic(auto, unfolding(crate::specs::Reading::signed_at, crate::specs::Reading::number_at, crate::specs::Reading::front_at))]
pub(crate) fn long(bytes: &[u8]) -> Result<(i64, &[u8]), Fault>
    ensures { Gives (λ p. (p.0, p.1.now)) result (signed_at w64 bytes.now) }
{
    match bytes.split_first_chunk::<8>() {
        Some((front, rest)) => Ok((i64::from_be_bytes(*front), rest)),
        None => Err(Fault::BadNbt),
    }
}

/// The number of a Float.
#[inline]
#[tactic(auto, unfolding(crate::specs::Reading::number_at, crate::specs::Reading::front_at))]
pub(crate) fn float(bytes: &[u8]) -> Result<(u32, &[u8]), Fault>
    ensures { Gives (λ p. (p.0, p.1.now)) result (number_at w32 bytes.now) }
{
    match bytes.split_first_chunk::<4>() {
        Some((front, rest)) => Ok((u32::from_be_bytes(*front), rest)),
        None => Err(Fault::BadNbt),
    }
}

/// The number of a Double.
#[inline]
#[tactic(auto, unfolding(crate::specs::Reading::number_at, crate::specs::Reading::front_at))]
pub(crate) fn double(bytes: &[u8]) -> Result<(u64, &[u8]), Fault>
    ensures { Gives (λ p. (p.0, p.1.now)) result (number_at w64 bytes.now) }
{
    match bytes.split_first_chunk::<8>() {
        Some((front, rest)) => Ok((u64::from_be_bytes(*front), rest)),
        None => Err(Fault::BadNbt),
    }
}

/// The numbers of 4 bytes each that stand one after the other.
fn ints(alloc: Global, bytes: &[u8]) -> Result<Vec<i32>, AllocError>
    ensures { IfOk result (λ numbers. numbers.items ≡ signed_in w32 bytes.now) }
{
    let (chunks, _) = bytes.as_chunks::<4>();
    chunks
        .iter()
        .map(|chunk| i32::from_be_bytes(*chunk))
        .collect(alloc)
}

/// The numbers of an Int Array, after their count.
#[tactic(auto, unfolding(crate::specs::Reading::numbers_at))]
pub(crate) fn int_array(alloc: Global, bytes: &[u8]) -> Result<(Vec<i32>, &[u8]), Fault>
    ensures { Gives (λ p. (p.0.items, p.1.now)) result (numbers_at w32 bytes.now) }
{
    let (length, rest) = array_length(bytes)?;
    let (numbers, rest) = front(rest, length * 4)?;
    Ok((ints(alloc, numbers)?, rest))
}

/// The numbers of 8 bytes each that stand one after the other.
fn longs(alloc: Global, bytes: &[u8]) -> Result<Vec<i64>, AllocError>
    ensures { IfOk result (λ numbers. numbers.items ≡ signed_in w64 bytes.now) }
{
    let (chunks, _) = bytes.as_chunks::<8>();
    chunks
        .iter()
        .map(|chunk| i64::from_be_bytes(*chunk))
        .collect(alloc)
}

/// The numbers of a Long Array, after their count.
#[tactic(auto, unfolding(crate::specs::Reading::numbers_at))]
pub(crate) fn long_array(alloc: Global, bytes: &[u8]) -> Result<(Vec<i64>, &[u8]), Fault>
    ensures { Gives (λ p. (p.0.items, p.1.now)) result (numbers_at w64 bytes.now) }
{
    let (length, rest) = array_length(bytes)?;
    let (numbers, rest) = front(rest, length * 8)?;
    Ok((longs(alloc, numbers)?, rest))
}
