//! What each step does to the view of the seat that makes it, and what it says to its caller.
//!
//! None of these has a value: they are the type parameters of the calls in `steps`. What they say is in `specs/Plays.antt`.
ghost use Rattle.atomic_table.specs.Seated.{TableId};
ghost use Rattle.crb_port.specs.declared.job.Job.{Job};
ghost use Rattle.crb_port.specs.declared.job.Answer.{Answer};

use crate::rule::{SeatView, SlotContent};
use atomic_table::{Join, Play, Split};
use std::marker::{Brand, PhantomData};

/// The identity of one table, for the proof alone, which picks it at a call with `Brand`.
pub(crate) trait GivenTable {
    ghost table: { TableId };
}

impl GivenTable for Brand {
    ghost use Rattle.crb_shared.specs.Plays.{no_table};

    ghost table = { no_table };
}

/// The job that a step adds, for the proof alone.
pub(crate) trait GivenJob {
    ghost job: { Job };
}

impl GivenJob for Brand {
    ghost use Rattle.crb_shared.specs.Plays.{no_job};

    ghost job = { no_job };
}

/// The answer that a step adds, for the proof alone.
pub(crate) trait GivenAnswer {
    ghost answer: { Answer };
}

impl GivenAnswer for Brand {
    ghost use Rattle.crb_shared.specs.Plays.{no_answer};

    ghost answer = { no_answer };
}

/// The first store, by which the first seat takes the slot.
pub(crate) struct Open<B> {
    given: PhantomData<B>,
}

impl<B: GivenTable> Play<Option<SlotContent>, SeatView> for Open<B> {
    ghost use Rattle.crb_shared.specs.Plays.{opened};

    ghost then = { opened B.table };
}

/// The split of the first seat into the guest's and the worker's.
pub(crate) struct Part;

impl Split<SeatView> for Part {
    ghost use Rattle.crb_shared.specs.Plays.{guest_part, worker_part};

    ghost left = { guest_part };

    ghost right = { worker_part };
}

/// The guest's load.
pub(crate) struct GuestLook;

impl Play<Option<SlotContent>, SeatView> for GuestLook {
    ghost use Rattle.crb_shared.specs.Plays.{guest_looked};

    ghost then = { guest_looked };
}

/// The load at which the guest adds a job that it is to queue.
pub(crate) struct AddQueued<E> {
    given: PhantomData<E>,
}

impl<E: GivenJob> Play<Option<SlotContent>, SeatView> for AddQueued<E> {
    ghost use Rattle.crb_shared.specs.Plays.{added_queued};

    ghost then = { added_queued E.job };
}

/// The load at which the worker adds an answer that it is to post.
pub(crate) struct AddPosted<E> {
    given: PhantomData<E>,
}

impl<E: GivenAnswer> Play<Option<SlotContent>, SeatView> for AddPosted<E> {
    ghost use Rattle.crb_shared.specs.Plays.{added_posted};

    ghost then = { added_posted E.answer };
}

/// The split of a note of the guest's jobs.
pub(crate) struct QueuedNote;

impl Split<SeatView> for QueuedNote {
    ghost use Rattle.crb_shared.specs.Plays.{with_note_split, note_of_queued};

    ghost left = { with_note_split };

    ghost right = { note_of_queued };
}

/// The split of a note of the worker's answers.
pub(crate) struct PostedNote;

impl Split<SeatView> for PostedNote {
    ghost use Rattle.crb_shared.specs.Plays.{with_note_split, note_of_posted};

    ghost left = { with_note_split };

    ghost right = { note_of_posted };
}

/// The store by which a seat gives the slot back, filled.
pub(crate) struct Give;

impl Play<Option<SlotContent>, SeatView> for Give {
    ghost use Rattle.crb_shared.specs.Plays.{given};

    ghost then = { given };
}

/// The guest's exchange of QUEUED to CANCELLED.
pub(crate) struct Cancel;

impl Play<Option<SlotContent>, SeatView> for Cancel {
    ghost use Rattle.crb_shared.specs.Plays.{cancelled};

    ghost then = { cancelled };
}

/// The guest's exchange to FREE, by which it takes the slot.
pub(crate) struct SetFree;

impl Play<Option<SlotContent>, SeatView> for SetFree {
    ghost use Rattle.crb_shared.specs.Plays.{freed};

    ghost then = { freed };
}

/// The join of the guest's own note, which came back with its job.
pub(crate) struct JoinOwnNote;

impl Join<SeatView> for JoinOwnNote {
    ghost use Rattle.crb_shared.specs.Plays.{own_note_joined, spent_view};

    ghost both = { own_note_joined };

    ghost spent = { spent_view };
}

/// The join of the other seat's note.
pub(crate) struct JoinNote;

impl Join<SeatView> for JoinNote {
    ghost use Rattle.crb_shared.specs.Plays.{note_joined, spent_view};

    ghost both = { note_joined };

    ghost spent = { spent_view };
}

/// The load at which the guest adds the answer that it took.
pub(crate) struct AddCollected;

impl Play<Option<SlotContent>, SeatView> for AddCollected {
    ghost use Rattle.crb_shared.specs.Plays.{added_collected};

    ghost then = { added_collected };
}

/// The worker's load.
pub(crate) struct WorkerLook;

impl Play<Option<SlotContent>, SeatView> for WorkerLook {
    ghost use Rattle.crb_shared.specs.Plays.{worker_looked};

    ghost then = { worker_looked };
}

/// The worker's exchange to CLAIMED, by which it takes the slot.
pub(crate) struct Claim;

impl Play<Option<SlotContent>, SeatView> for Claim {
    ghost use Rattle.crb_shared.specs.Plays.{claimed};

    ghost then = { claimed };
}

/// The load at which the worker adds the job that it took.
pub(crate) struct AddClaimed;

impl Play<Option<SlotContent>, SeatView> for AddClaimed {
    ghost use Rattle.crb_shared.specs.Plays.{added_claimed};

    ghost then = { added_claimed };
}

/// The join of the worker's seat into the guest's.
pub(crate) struct Close;

impl Join<SeatView> for Close {
    ghost use Rattle.crb_shared.specs.Plays.{closed, spent_view};

    ghost both = { closed };

    ghost spent = { spent_view };
}

/// The load at which the rule says how the lists of both seats are related.
pub(crate) struct Compare;

impl Play<Option<SlotContent>, SeatView> for Compare {
    ghost use Rattle.crb_shared.specs.Plays.{compared};

    ghost then = { compared };
}

/// The load at which a worker that holds the slot gives it back, empty.
pub(crate) struct LeaveSlot;

impl Play<Option<SlotContent>, SeatView> for LeaveSlot {
    ghost use Rattle.crb_shared.specs.Plays.{slot_left};

    ghost then = { slot_left };
}
