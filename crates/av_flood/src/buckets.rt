//! Blocks that wait for light, by its level.
ghost use Rattle.std.specs.Prelude.{◌≡◌, ◌<◌, ℕ, vec_len, OnOk, MatchOption, IfOk, []};
ghost use Rattle.av_types.specs.declared.position.Pos.{Pos};

use av_types::Pos;
use std::alloc::{AllocError, Global};

/// The blocks that wait for light of each level, from 0 to 15.
#[derive(Drop)]
pub(crate) struct Buckets {
    pub(crate) levels: Vec<Vec<Pos>>,
    ghost sixteen: { vec_len levels ≡ 16 },
}

impl Buckets {
    ghost use Rattle.av_flood.specs.Flooding.{todo_of, IsPushed, IsPopped, IsNone};

    /// None waits.
    pub(crate) fn new(alloc: Global) -> Result<Buckets, AllocError>
        ensures { IfOk result (λ b. (n : ℕ) → todo_of b n ≡ []) }
    {
        let mut levels = Vec::new(alloc);
        for _level in 0..16u8 {
            levels.push(Vec::new(alloc))?;
        }
        Ok(Buckets { levels })
    }

    /// The same lists, in which none waits any more.
    fn emptied(self) -> Buckets
        ensures { (n : ℕ) → todo_of result n ≡ [] }
    {
        let Buckets { mut levels } = self;
        for level in 0..16 {
            let bucket = &mut levels[level];
            bucket.clear();
        }
        Buckets { levels }
    }

    /// Lists in which none waits, over the memory of others if some are given.
    pub(crate) fn empty(alloc: Global, used: Option<Buckets>) -> Result<Buckets, AllocError>
        ensures { IfOk result (λ b. (n : ℕ) → todo_of b n ≡ []) }
    {
        let Some(used) = used else {
            return Buckets::new(alloc);
        };
        Ok(used.emptied())
    }

    /// Adds a block.
    pub(crate) fn push(&mut self, level: u8, pos: Pos) -> Result<(), AllocError>
        requires { level < 16 }
        ensures { OnOk result (IsPushed (todo_of self.old) (todo_of self.new) level pos) }
    {
        let bucket = &mut self.levels[level as usize];
        bucket.push(pos)?;
        Ok(())
    }

    /// Takes a block out.
    pub(crate) fn pop(&mut self, level: u8) -> Option<Pos>
        requires { level < 16 }
        ensures { MatchOption result (IsNone (todo_of self.old) (todo_of self.new) level)
            (IsPopped (todo_of self.old) (todo_of self.new) level) }
    {
        let bucket = &mut self.levels[level as usize];
        bucket.pop()
    }
}
