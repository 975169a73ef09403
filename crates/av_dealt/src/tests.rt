//! Squares of indices, made by threads that come one after the other.
ghost use Rattle.std.specs.Prelude.{◌≡◌, ◌*◌, ◌<◌};

use crate::{Maker, gathered, taken};
use std::alloc::{AllocError, Global};
use std::sync::atomic::AtomicU64;
use std::test::Fail;

/// A square, and which of those of its thread it is.
#[derive(Debug, PartialEq, Eq, Clone, Copy, Drop)]
struct Square {
    square: usize,
    order: usize,
}

/// Makes the squares of five indices but of the fourth, and wants memory at one, if any.
#[derive(Drop)]
struct Squares {
    refused: Option<usize>,
}

impl Maker for Squares {
    type Thing = Square;

    type Bench = usize;

    ghost count = { λ _. 5 };

    ghost is_of = { λ _ n square. square.square ≡ n * n };

    fn count(&self) -> usize {
        5
    }

    fn bench(&self) -> usize {
        0
    }

    fn make(
        &self,
        _alloc: Global,
        index: usize,
        bench: &mut usize,
    ) -> Result<Option<Square>, AllocError> {
        if self.refused == Some(index) {
            return Err(AllocError);
        }
        if index == 3 {
            return Ok(None);
        }
        let order = *bench;
        *bench = order.wrapping_add(1);
        let square = index * index;
        Ok(Some(Square { square, order }))
    }
}

/// The squares of two threads, of which the first begins when so many indices are taken.
fn dealt(alloc: Global, begun: u64) -> Result<Vec<Option<Square>>, AllocError> {
    let squares = Squares { refused: None };
    let next = AtomicU64::new(begun);
    let mut all = Vec::new(alloc);
    all.push(taken(alloc, &squares, &next))?;
    all.push(taken(alloc, &squares, &next))?;
    gathered(alloc, &squares, all)
}

fn made(square: usize, order: usize) -> Option<Square> {
    Some(Square { square, order })
}

#[test]
fn each_thing_is_at_its_index(rt: HostRuntime) -> Result<(), Fail> {
    let found = dealt(rt.alloc(), 0)?;
    let meant = [made(0, 0), made(1, 1), made(4, 2), None, made(16, 3)];
    assert_eq!(rt; found.as_slice(), meant.as_slice());
    Ok(())
}

#[test]
fn indices_that_are_taken_stay_empty(rt: HostRuntime) -> Result<(), Fail> {
    let found = dealt(rt.alloc(), 2)?;
    let meant = [None, None, made(4, 0), None, made(16, 1)];
    assert_eq!(rt; found.as_slice(), meant.as_slice());
    Ok(())
}

#[test]
fn a_thread_that_wants_memory(rt: HostRuntime) -> Result<(), Fail> {
    let squares = Squares { refused: Some(1) };
    let next = AtomicU64::new(0);
    let mut all = Vec::new(rt.alloc());
    all.push(taken(rt.alloc(), &squares, &next))?;
    all.push(taken(rt.alloc(), &squares, &next))?;
    assert!(rt; gathered(rt.alloc(), &squares, all).is_err());
    Ok(())
}
