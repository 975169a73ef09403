//! What each pass of a line knows, and what each step tells it.
ghost use Rattle.std.specs.Prelude.{◌≡◌};

use crate::fits::Fits;
use crossbeam_queue::protocol::{Lesson, Outcome, Protocol, Split};

/// What the queue of a line holds.
#[derive(Drop)]
pub enum Slot<T, P> {
    /// The plan. It is in the queue only while the line is opened.
    Plan(P),
    /// An item.
    Item(T),
}

/// What a pass knows. No value of it is made.
pub enum View<P> {
    /// No plan is told.
    Fresh,
    /// The plan, which lies in the queue.
    Telling(P),
    /// The plan, which every pass knows.
    Told(P),
}

/// The rule of the line.
pub struct Law;

impl<T: Fits<P>, P> Protocol<Slot<T, P>, View<P>> for Law {
    ghost use Rattle.av_line.specs.declared.rule.View.TheVariants.{Fresh};
    ghost use Rattle.av_line.specs.Line.{Kept};

    ghost holds = { Kept T.fits };

    ghost first = { Fresh };
}

/// A pass more is made, which knows the same.
pub struct Shares;

impl<P> Split<View<P>> for Shares {
    ghost left = { λ v. v };

    ghost right = { λ v. v };
}

/// The plan, or an item, is put in.
pub struct Puts;

impl<T, P> Outcome<Slot<T, P>, View<P>> for Puts {
    ghost use Rattle.av_line.specs.Line.{put};

    ghost then = { λ v x w. w ≡ put v x };
}

impl<T: Fits<P>, P> Lesson<Slot<T, P>, View<P>> for Puts {
    ghost use Rattle.av_line.specs.Line.{IsContent};

    ghost fact = { IsContent T.fits };
}

/// The plan is taken out.
pub struct Hears;

impl<T, P> Outcome<Slot<T, P>, View<P>> for Hears {
    ghost use Rattle.av_line.specs.Line.{heard};

    ghost then = { λ v x w. w ≡ heard v };
}

impl<T: Fits<P>, P> Lesson<Slot<T, P>, View<P>> for Hears {
    ghost use Rattle.av_line.specs.Line.{IsContent};

    ghost fact = { IsContent T.fits };
}

/// An item is taken out.
pub struct Takes;

impl<T: Fits<P>, P> Outcome<Slot<T, P>, View<P>> for Takes {
    ghost use Rattle.av_line.specs.Line.{Took};

    ghost then = { Took T.fits };
}

impl<T: Fits<P>, P> Lesson<Slot<T, P>, View<P>> for Takes {
    ghost use Rattle.av_line.specs.Line.{IsContent};

    ghost fact = { IsContent T.fits };
}
