//! What the table holds, and what each seat at it knows. The rule over both is `specs/Rule.antt`.
use atomic_table::{Badge, TableRule};
use crb_port::{Answer, Job, PortStage};
use std::collections::LinkedList;

/// The word while the port is free. The guest holds the slot.
pub(crate) const FREE: u64 = 0;
/// The word while a job waits. The slot is at the table.
pub(crate) const QUEUED: u64 = 1;
/// The word while a job waits that is cancelled. The slot is at the table.
pub(crate) const CANCELLED: u64 = 2;
/// The word while the job is claimed. The worker holds the slot.
pub(crate) const CLAIMED: u64 = 3;
/// The word while an answer waits. The slot is at the table.
pub(crate) const ANSWERED: u64 = 4;
/// The one word.
pub(crate) const WORD: usize = 0;
/// The one slot.
pub(crate) const SLOT: usize = 0;

/// What lies in the slot, with the note that its giver left for the taker.
#[derive(Drop)]
pub enum SlotContent {
    Waiting(Job, Badge<SeatView>),
    Answered(Answer, Badge<SeatView>),
}

/// Whose seat it is.
pub enum SeatRole {
    /// The first seat, before it takes the slot.
    Opening,
    /// The first seat with the slot, before it is split.
    Unsplit,
    Guest,
    Worker,
    /// It lies in the slot, or was just taken out of it.
    Note,
    /// The guest's seat, with the worker's joined into it.
    Closed,
    /// Joined into another one.
    Spent,
}

/// What a seat has to do with the slot.
pub enum SeatPhase {
    /// It doesn't hold the slot.
    Away,
    /// It holds the slot, and owes nothing.
    Holding,
    /// It took its own job back, and has to join its own note.
    NoteBack,
    /// It took what the other seat gave, and has to join the other's note.
    Due,
    /// It joined the note, and has to add an entry to its list.
    NoteJoined,
    /// It added an entry for what it is to give.
    Ready,
    /// It split off a note of that.
    NoteSplit,
}

/// The identity of a table, as a view can hold it. No value of it is made.
pub struct TableName {
    pub words: u64,
    pub slots: u64,
    pub views_name: u64,
    pub atom: u64,
    pub block: u64,
    pub offset: u64,
    pub slot_names: LinkedList<u64>,
}

/// What a seat knows. No value of it is made.
pub struct SeatView {
    pub role: SeatRole,
    pub phase: SeatPhase,
    /// The job that waits, or that the worker has, is cancelled.
    pub job_cancelled: bool,
    /// The last look found an answer. Only the guest takes that out.
    pub found_answer: bool,
    /// What its loads and exchanges found.
    pub looks: LinkedList<PortStage>,
    /// The jobs that it queued or claimed.
    pub jobs: LinkedList<Job>,
    /// The answers that it collected or posted.
    pub answers: LinkedList<Answer>,
    /// The other seat's jobs, as a note had them.
    pub noted_jobs: LinkedList<Job>,
    /// The other seat's answers, as a note had them.
    pub noted_answers: LinkedList<Answer>,
    /// Its table.
    pub table_name: TableName,
}

/// The rule of a port's table.
pub struct PortRule;

impl TableRule<Option<SlotContent>, SeatView, ()> for PortRule {
    ghost use Rattle.crb_shared.specs.Rule.{PortInvariant, start_view};

    ghost holds = { λ _. PortInvariant };

    ghost first = { λ _. start_view };
}

/// The table of one port: one word and one slot.
pub type PortTable = atomic_table::Table<
    Option<SlotContent>,
    SeatView,
    (),
    PortRule,
    std::alloc::Global,
>;

/// A seat at it, with what it holds.
pub type TableSeat = atomic_table::Seat<Option<SlotContent>, SeatView>;
