//! What each seat of the ring knows, and what each step tells it.
ghost use Rattle.std.specs.Prelude.{◌≡◌};

use crossbeam_queue::protocol::{Join, Lesson, Outcome, Protocol, Split};
use std::collections::LinkedList;

/// What a seat knows. No value of it is made.
pub struct View<J> {
    /// How many parts of the right to the queue are here. A seat has one.
    pub parts: u64,
    /// How many end markers are to come for these parts.
    pub ends: u64,
    /// How many parts there are in all.
    pub all: u64,
    /// The jobs that were filled.
    pub told: LinkedList<J>,
    /// What the seats that came back here were told of them.
    pub heard: LinkedList<LinkedList<J>>,
    /// Those that were taken here.
    pub taken: LinkedList<J>,
    /// Whether an end marker was taken here.
    pub dry: bool,
}

/// The rule of the ring.
pub struct Law;

impl<J> Protocol<Option<J>, View<J>> for Law {
    ghost use Rattle.av_ring.specs.Ring.{Kept, filler};

    ghost holds = { Kept };

    ghost first = { filler };
}

/// A seat is handed out.
pub struct Hands;

impl<J> Split<View<J>> for Hands {
    ghost use Rattle.av_ring.specs.Ring.{without_seat, seat_of};

    ghost left = { without_seat };

    ghost right = { seat_of };
}

impl<J> Join<View<J>> for Hands {
    ghost use Rattle.av_ring.specs.Ring.{together, idle};

    ghost both = { together };

    ghost spent = { idle };
}

/// A job, or an end for one seat, is put in.
pub struct Puts;

impl<J> Outcome<Option<J>, View<J>> for Puts {
    ghost use Rattle.av_ring.specs.Ring.{put};

    ghost then = { λ v x w. w ≡ put v x };
}

impl<J> Lesson<Option<J>, View<J>> for Puts {
    ghost use Rattle.av_ring.specs.Ring.{Counts};

    ghost fact = { Counts };
}

/// A job, or an end, is taken out.
pub struct Takes;

impl<J> Outcome<Option<J>, View<J>> for Takes {
    ghost use Rattle.av_ring.specs.Ring.{Took};

    ghost then = { Took };
}

impl<J> Lesson<Option<J>, View<J>> for Takes {
    ghost use Rattle.av_ring.specs.Ring.{Shows};

    ghost fact = { Shows };
}
