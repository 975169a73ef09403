//! The line and its passes.
ghost use Rattle.std.specs.Prelude.{◌≡◌, ◌<◌, ◌≤◌, [], true, IfOk, IfErr, IfSome};
ghost use Rattle.crossbeam_queue.specs.Passes.{view as known, IsPassOf, ruled_capacity};
ghost use Rattle.av_line.specs.declared.rule.View.TheVariants.{Fresh, Told};
ghost use Rattle.av_line.specs.Line.{is_told, plan_of};
ghost use Rattle.av_line.specs.Shown.{LineShown, PassShown, line_shown, pass_shown};

use crate::fits::Fits;
use crate::rule::{Hears, Law, Puts, Shares, Slot, Takes, View};
use crossbeam_queue::{Pass, RuledArrayQueue};
use std::alloc::{AllocError, Global};
use std::marker::Model;
use std::sync::Wait;

type Queue<T, P> = RuledArrayQueue<Slot<T, P>, View<P>, Law>;

/// A line of items, each of which fits one plan. The threads share it by `&`.
#[derive(Drop)]
pub struct Line<T: Fits<P>, P> {
    queue: Queue<T, P>,
}

impl<T: Fits<P>, P> Model for Line<T, P> {
    ghost Value = { LineShown };

    ghost view = { λ l. line_shown l.queue.table.shared.table_id l.queue.cap };
}

/// The right of one thread to put items into one line and to take them. In proofs it knows the plan.
#[derive(Drop)]
pub struct LinePass<T: Fits<P>, P> {
    pass: Pass<Slot<T, P>, View<P>>,
    ghost told: { is_told (known pass) ≡ true },
}

impl<T: Fits<P>, P> Model for LinePass<T, P> {
    ghost Value = { PassShown P };

    ghost view = { λ s. pass_shown s.pass.table_id (plan_of (known s.pass) s.told) };

    ghost invariant = { λ s. s.pass.me.1 ≡ [] };
}

impl<T: Fits<P> + Drop + Send, P: Drop + Send> Line<T, P> {
    /// A line for so many items that fit the plan, one at least, and a first pass. The plan itself is dropped.
    ///
    /// # Errors
    /// Where there is no memory for so many.
    pub fn open<R: Wait>(
        rt: &R,
        alloc: Global,
        plan: P,
        room: usize,
    ) -> Result<(Line<T, P>, LinePass<T, P>), AllocError>
        ensures line { IfOk result (λ r. r.1.line ≡ r.0.line) }
        ensures plan { IfOk result (λ r. r.1.plan ≡ plan) }
        ensures room { IfOk result (λ r. room ≤ r.0.room) }
    {
        let (queue, mut pass) = Queue::ruled(alloc, room.max(1))?;
        tell(rt, &queue, &mut pass, plan);
        Ok((Line { queue }, LinePass { pass }))
    }

    /// A pass more, which knows the same.
    pub fn another(&self, pass: &mut LinePass<T, P>) -> LinePass<T, P>
        requires { pass.old.line ≡ self.now.line }
        ensures { (pass.new ≡ pass.old) × (result ≡ pass.old) }
    {
        let pass = self.queue.another::<Shares>(&mut pass.pass);
        LinePass { pass }
    }

    /// Puts an item in, behind the others. Takes no memory.
    ///
    /// # Errors
    /// The item, where the line was full.
    pub fn put<R: Wait>(&self, rt: &R, pass: &mut LinePass<T, P>, item: T) -> Result<(), T>
        requires line { pass.old.line ≡ self.now.line }
        requires fits { T.fits pass.old.plan item }
        ensures pass { pass.new ≡ pass.old }
        ensures err { IfErr result (λ x. x ≡ item) }
    {
        match self
            .queue
            .push_as::<Puts, R>(rt, &mut pass.pass, Slot::Item(item))
        {
            Ok(()) => Ok(()),
            Err(Slot::Item(item)) => Err(item),
            Err(Slot::Plan(_)) => unreachable!(),
        }
    }

    /// Takes the first item out. None where the line was empty.
    pub fn take<R: Wait>(&self, rt: &R, pass: &mut LinePass<T, P>) -> Option<T>
        requires line { pass.old.line ≡ self.now.line }
        ensures pass { pass.new ≡ pass.old }
        ensures fits { IfSome result (λ x. T.fits pass.old.plan x) }
    {
        match self.queue.pop_as::<Takes, R>(rt, &mut pass.pass)? {
            Slot::Item(item) => Some(item),
            Slot::Plan(_) => unreachable!(),
        }
    }
}

/// Tells the plan to the first pass, through the queue: it is put in and taken out again.
fn tell<T: Fits<P> + Drop + Send, P: Drop + Send, R: Wait>(
    rt: &R,
    queue: &Queue<T, P>,
    pass: &mut Pass<Slot<T, P>, View<P>>,
    plan: P,
)
    requires pass { IsPassOf queue.now pass.old × (known pass.old ≡ Fresh) }
    requires room { 0 < ruled_capacity queue.now }
    ensures { IsPassOf queue.now pass.new × (known pass.new ≡ Told plan) }
{
    match queue.push_as::<Puts, R>(rt, pass, Slot::Plan(plan)) {
        Ok(()) => {}
        Err(_) => unreachable!(),
    }
    match queue.pop_as::<Hears, R>(rt, pass) {
        Some(_) => {}
        None => unreachable!(),
    }
}
