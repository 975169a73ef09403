//! What threads hand to each other.
use crate::lender::Lender;
use crate::lent::{Lent, Turned};
use crate::plans::Plan;
use av_line::Fits;
use av_world::World;

/// What a worker is handed.
#[derive(Drop)]
pub enum Work {
    /// A group to turn.
    Turn(Lent),
    /// Nothing more.
    End,
}

impl Fits<Plan> for Work {
    ghost use Rattle.av_lending.specs.Handed.{IsWorkOf};

    ghost fits = { IsWorkOf };
}

impl Fits<Plan> for Turned {
    ghost use Rattle.av_lending.specs.Handed.{IsTurnedOf};

    ghost fits = { IsTurnedOf };
}

/// The tick's world and what of it is lent. One thread at a time has it.
#[derive(Drop)]
pub struct Keeper {
    pub lender: Lender,
    pub world: World,
    /// Whether all threads were handed the end.
    pub has_ended: bool,
}

impl Fits<Plan> for Keeper {
    ghost use Rattle.av_lending.specs.Handed.{IsKeeperOf};

    ghost fits = { IsKeeperOf };
}
