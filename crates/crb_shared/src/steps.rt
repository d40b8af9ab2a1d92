//! The steps of the two seats on the word and the slot.
//!
//! Each call of `table.shared` is one step. Its type parameter says what the seat's view becomes, and its proof is that the
//! rule holds afterwards, whatever the other seat did before.
ghost use Rattle.std.specs.Prelude.{◌≡◌, true, ◌≢◌, ◌++◌, [], ◌∷◌, None, ◌⊎◌};
ghost use Rattle.crb_port.specs.Views.{is_waiting};
ghost use Rattle.crb_port.specs.declared.job.PortStage.TheVariants.{Free, Claimed};
ghost use Rattle.crb_port.specs.declared.job.PortStage.TheVariants as stages;
ghost use Rattle.crb_shared.specs.declared.rule.SeatRole.TheVariants.{Guest, Worker};
ghost use Rattle.crb_shared.specs.declared.rule.SeatRole.TheVariants as roles;
ghost use Rattle.crb_shared.specs.declared.rule.SeatPhase.TheVariants.{Away, Holding, NoteBack, Due};
ghost use Rattle.crb_shared.specs.Agreement.{last_number, with_cancelled, ListsAgree};
ghost use Rattle.crb_shared.specs.Rule.{empty_view, start_view, name_of_table, is_between};
ghost use Rattle.crb_shared.specs.Plays.{slot_with, stage_of_word, word_of_stage, guest_look, worker_look, cancel_view, freed_view, claim_view, with_queued, with_posted, away, GuestSees, WorkerSees, TakenOut, opened_view, guest_part, closed, IsQueuedNote, IsPostedNote, slots_of, own_job, any_job, IsInSlot, IsWord};
ghost use Rattle.crb_shared.specs.declared.rule.SeatView.{SeatView};
ghost use Rattle.crb_shared.specs.Steps.{IsSeatOf, BecomesView, TakesOwnJob, ClaimsWaiting};

use crate::plays::{
    AddClaimed, AddCollected, AddPosted, AddQueued, Cancel, Claim, Close, Compare, Give,
    GivenAnswer, GivenJob, GivenTable, GuestLook, JoinNote, JoinOwnNote, LeaveSlot, Open, Part,
    PostedNote, QueuedNote, SetFree, WorkerLook,
};
use crate::rule::{
    ANSWERED, CANCELLED, CLAIMED, FREE, PortTable, QUEUED, SLOT, SeatView, SlotContent, TableSeat,
    WORD,
};
use atomic_table::Badge;
use crb_port::{Answer, Job, PortStage};
use std::marker::Brand;

fn stage_of_word(word: u64) -> PortStage
    ensures { result ≡ stage_of_word word }
{
    match word {
        FREE => PortStage::Free,
        QUEUED => PortStage::Queued,
        CANCELLED => PortStage::Cancelled,
        CLAIMED => PortStage::Claimed,
        _ => PortStage::Answered,
    }
}

fn word_of_stage(found: PortStage) -> u64
    ensures { result ≡ word_of_stage found }
{
    match found {
        PortStage::Free => FREE,
        PortStage::Queued => QUEUED,
        PortStage::Cancelled => CANCELLED,
        PortStage::Claimed => CLAIMED,
        PortStage::Answered => ANSWERED,
    }
}

/// Takes the slot. The view gets the table's identity, which `B` names for the proof alone.
fn open_at<B: GivenTable>(table: &PortTable, seat: &mut TableSeat)
    requires id { IsSeatOf table.now.shared.table_id seat.old.table_id }
    requires me { seat.old.me ≡ (start_view, []) }
    ensures id { IsSeatOf table.now.shared.table_id seat.new.table_id }
    ensures me { seat.new.me ≡ (opened_view B.table, slot_with None) }
{
    table.shared.store::<Open<B>>(seat, WORD, FREE);
}

/// The start: the first seat takes the slot, and is split into the guest's and the worker's.
pub(crate) fn open(table: &PortTable, mut seat: TableSeat) -> (TableSeat, TableSeat)
    requires id { IsSeatOf table.now.shared.table_id seat.table_id }
    requires me { seat.me ≡ (start_view, []) }
    ensures id { IsSeatOf table.now.shared.table_id result.0.table_id × IsSeatOf table.now.shared.table_id result.1.table_id }
    ensures guest { result.0.me ≡ (guest_part (opened_view table.now.shared.table_id), slot_with None) }
    ensures worker { result.1.me ≡ (empty_view Worker (name_of_table table.now.shared.table_id), []) }
{
    open_at::<Brand>(table, &mut seat);
    let worker = table.shared.split_seat::<Part>(&mut seat);
    (seat, worker)
}

/// What the guest finds by a load.
pub(crate) fn guest_look(table: &PortTable, seat: &mut TableSeat) -> PortStage
    requires id { IsSeatOf table.now.shared.table_id seat.old.table_id }
    requires me { seat.old.me.0.role ≡ Guest }
    ensures id { IsSeatOf table.now.shared.table_id seat.new.table_id }
    ensures me { seat.new.me ≡ (guest_look result seat.old.me.0, seat.old.me.1) }
    ensures sees { GuestSees seat.old.me.0 result }
{
    stage_of_word(table.shared.load::<GuestLook>(seat, WORD))
}

/// Adds the entry of a job that the guest is to queue, while it holds the slot.
fn add_queued<E: GivenJob>(table: &PortTable, seat: &mut TableSeat, _job: &Job)
    requires id { IsSeatOf table.now.shared.table_id seat.old.table_id }
    requires me { (seat.old.me.0.role ≡ Guest) × (seat.old.me.0.phase ≡ Holding) }
    ensures id { IsSeatOf table.now.shared.table_id seat.new.table_id }
    ensures me { seat.new.me ≡ (with_queued E.job seat.old.me.0, seat.old.me.1) }
{
    table.shared.load::<AddQueued<E>>(seat, WORD);
}

/// Adds the job to the guest's list, puts it into the slot with a note of that list, and stores the word.
pub(crate) fn queue(table: &PortTable, seat: &mut TableSeat, job: Job)
    requires id { IsSeatOf table.now.shared.table_id seat.old.table_id }
    requires me { (seat.old.me.0.role ≡ Guest) × (seat.old.me.0.phase ≡ Holding) × (seat.old.me.1 ≡ slot_with None) }
    requires table_name { seat.old.me.0.table_name ≡ name_of_table table.now.shared.table_id }
    ensures id { IsSeatOf table.now.shared.table_id seat.new.table_id }
    ensures me { seat.new.me ≡ (away (with_queued job seat.old.me.0), []) }
{
    let word = if job.cancelled { CANCELLED } else { QUEUED };
    add_queued::<Brand>(table, seat, &job);
    let note = table.shared.split_seat::<QueuedNote>(seat).into_badge();
    drop(
        table
            .shared
            .exchange(seat, SLOT, Some(SlotContent::Waiting(job, note))),
    );
    table.shared.store::<Give>(seat, WORD, word);
}

/// Marks the job that waits as cancelled by the word alone. The result is what was found.
pub(crate) fn cancel(table: &PortTable, seat: &mut TableSeat) -> PortStage
    requires id { IsSeatOf table.now.shared.table_id seat.old.table_id }
    requires me { seat.old.me.0.role ≡ Guest }
    ensures id { IsSeatOf table.now.shared.table_id seat.new.table_id }
    ensures me { seat.new.me ≡ (cancel_view result seat.old.me.0, seat.old.me.1) }
    ensures sees { GuestSees seat.old.me.0 result }
{
    stage_of_word(
        table
            .shared
            .compare_exchange::<Cancel>(seat, WORD, QUEUED, CANCELLED),
    )
}

/// If `old` is found, the word is FREE afterwards and the guest holds the slot. The result has what was found, and what was in the
/// slot.
fn take_out(
    table: &PortTable,
    seat: &mut TableSeat,
    old: PortStage,
) -> (PortStage, Option<SlotContent>)
    requires id { IsSeatOf table.now.shared.table_id seat.old.table_id }
    requires me { (seat.old.me.0.role ≡ Guest) × (seat.old.me.0.phase ≡ Away) × (seat.old.me.1 ≡ []) }
    requires old { (old ≢ Free) × (old ≢ Claimed) }
    ensures id { IsSeatOf table.now.shared.table_id seat.new.table_id }
    ensures hit { result.0 ≡ old → (seat.new.me ≡ (freed_view old seat.old.me.0, slot_with None)) × TakenOut seat.old.me.0.table_name (own_job seat.old.me.0) old result.1 }
    ensures miss { result.0 ≢ old → (seat.new.me ≡ (guest_look result.0 seat.old.me.0, [])) × (result.1 ≡ None) }
    ensures sees { GuestSees seat.old.me.0 result.0 }
{
    let old_word = word_of_stage(old);
    let word = table
        .shared
        .compare_exchange::<SetFree>(seat, WORD, old_word, FREE);
    if word == old_word {
        (old, table.shared.exchange(seat, SLOT, None))
    } else {
        (stage_of_word(word), None)
    }
}

/// Joins the guest's own note, which came back with its job.
fn join_own_note(table: &PortTable, seat: &mut TableSeat, note: Badge<SeatView>)
    requires id { IsSeatOf table.now.shared.table_id seat.old.table_id }
    requires me { (seat.old.me.0.role ≡ Guest) × (seat.old.me.0.phase ≡ NoteBack) }
    requires note { (note.table_id ≡ table.now.shared.table_id) × ((v : SeatView) × (note.views ≡ v ∷ []) × (v.role ≡ roles.Note)) }
    ensures id { IsSeatOf table.now.shared.table_id seat.new.table_id }
    ensures me { seat.new.me ≡ (record seat.old.me.0 { phase = Holding }, seat.old.me.1) }
{
    table
        .shared
        .join_seat::<JoinOwnNote>(seat, note.into_seat());
}

/// Takes back the job that waits, or says what was found in place of `old`.
pub(crate) fn take_job(
    table: &PortTable,
    seat: &mut TableSeat,
    old: PortStage,
) -> Result<Job, PortStage>
    requires id { IsSeatOf table.now.shared.table_id seat.old.table_id }
    requires me { (seat.old.me.0.role ≡ Guest) × (seat.old.me.0.phase ≡ Away) × (seat.old.me.1 ≡ []) }
    requires table_name { seat.old.me.0.table_name ≡ name_of_table table.now.shared.table_id }
    requires old { is_waiting old ≡ true }
    ensures id { IsSeatOf table.now.shared.table_id seat.new.table_id }
    ensures result { TakesOwnJob old seat.old.me.0 seat.new.me result }
{
    match take_out(table, seat, old) {
        (found, None) => Err(found),
        (_, Some(SlotContent::Waiting(job, note))) => {
            join_own_note(table, seat, note);
            Ok(Job {
                cancelled: matches!(old, PortStage::Cancelled),
                ..job
            })
        }
        (_, Some(SlotContent::Answered(_, _))) => unreachable!(),
    }
}

/// Joins the worker's note, and adds the answer to the guest's list.
fn collect_answer(
    table: &PortTable,
    seat: &mut TableSeat,
    note: Badge<SeatView>,
    answer: Answer,
) -> Answer
    requires id { IsSeatOf table.now.shared.table_id seat.old.table_id }
    requires me { (seat.old.me.0.role ≡ Guest) × (seat.old.me.0.phase ≡ Due) }
    requires table_name { seat.old.me.0.table_name ≡ name_of_table table.now.shared.table_id }
    requires note { IsPostedNote seat.old.me.0.table_name note answer }
    ensures id { IsSeatOf table.now.shared.table_id seat.new.table_id }
    ensures me { BecomesView seat.old.me.0 seat.new.me.0 Holding seat.old.me.0.looks seat.old.me.0.jobs (seat.old.me.0.answers ++ answer ∷ []) × (seat.new.me.1 ≡ seat.old.me.1) }
    ensures same { result ≡ answer }
{
    table.shared.join_seat::<JoinNote>(seat, note.into_seat());
    table.shared.load::<AddCollected>(seat, WORD);
    answer
}

/// Takes the answer that the last look found. Nobody but the guest takes it, so it is still there.
pub(crate) fn take_answer(table: &PortTable, seat: &mut TableSeat) -> Answer
    requires id { IsSeatOf table.now.shared.table_id seat.old.table_id }
    requires me { (seat.old.me.0.role ≡ Guest) × (seat.old.me.0.phase ≡ Away) × (seat.old.me.1 ≡ []) }
    requires table_name { seat.old.me.0.table_name ≡ name_of_table table.now.shared.table_id }
    requires found_answer { seat.old.me.0.found_answer ≡ true }
    ensures id { IsSeatOf table.now.shared.table_id seat.new.table_id }
    ensures me { BecomesView seat.old.me.0 seat.new.me.0 Holding (seat.old.me.0.looks ++ stages.Answered ∷ []) seat.old.me.0.jobs (seat.old.me.0.answers ++ result ∷ []) × (seat.new.me.1 ≡ slot_with None) }
{
    match take_out(table, seat, PortStage::Answered) {
        (_, Some(SlotContent::Answered(answer, note))) => collect_answer(table, seat, note, answer),
        _ => unreachable!(),
    }
}

/// What the worker finds by a load.
pub(crate) fn worker_look(table: &PortTable, seat: &mut TableSeat) -> PortStage
    requires id { IsSeatOf table.now.shared.table_id seat.old.table_id }
    requires me { seat.old.me.0.role ≡ Worker }
    ensures id { IsSeatOf table.now.shared.table_id seat.new.table_id }
    ensures me { seat.new.me ≡ (worker_look result seat.old.me.0, seat.old.me.1) }
    ensures sees { WorkerSees seat.old.me.0 result }
{
    stage_of_word(table.shared.load::<WorkerLook>(seat, WORD))
}

/// Joins the guest's note, and adds the job to the worker's list.
fn add_claimed(table: &PortTable, seat: &mut TableSeat, note: Badge<SeatView>, job: Job) -> Job
    requires id { IsSeatOf table.now.shared.table_id seat.old.table_id }
    requires me { (seat.old.me.0.role ≡ Worker) × (seat.old.me.0.phase ≡ Due) }
    requires table_name { seat.old.me.0.table_name ≡ name_of_table table.now.shared.table_id }
    requires note { IsQueuedNote seat.old.me.0.table_name note job }
    ensures id { IsSeatOf table.now.shared.table_id seat.new.table_id }
    ensures me { BecomesView seat.old.me.0 seat.new.me.0 Holding seat.old.me.0.looks (seat.old.me.0.jobs ++ with_cancelled seat.old.me.0.job_cancelled job ∷ []) seat.old.me.0.answers × (seat.new.me.1 ≡ seat.old.me.1) }
    ensures same { result ≡ job }
{
    table.shared.join_seat::<JoinNote>(seat, note.into_seat());
    table.shared.load::<AddClaimed>(seat, WORD);
    job
}

/// The exchange of `old_word` to CLAIMED. The result is the word that was found; if that is `old_word`, the worker holds the
/// slot.
fn set_claimed(table: &PortTable, seat: &mut TableSeat, old_word: u64) -> u64
    requires id { IsSeatOf table.now.shared.table_id seat.old.table_id }
    requires me { (seat.old.me.0.role ≡ Worker) × (seat.old.me.1 ≡ []) }
    requires waiting { (old_word ≡ 1) ⊎ (old_word ≡ 2) }
    ensures id { IsSeatOf table.now.shared.table_id seat.new.table_id }
    ensures hit { result ≡ old_word → (seat.new.me.0 ≡ claim_view (stage_of_word result) seat.old.me.0) × IsInSlot seat.old.me.0.table_name any_job (stage_of_word result) seat.new.me.1 }
    ensures miss { result ≢ old_word → seat.new.me ≡ (worker_look (stage_of_word result) seat.old.me.0, []) }
    ensures word { IsWord result }
{
    table
        .shared
        .compare_exchange::<Claim>(seat, WORD, old_word, CLAIMED)
}

/// Claims the job that waits, or says what was found in place of `old`. Whether the job is cancelled is what the word says
/// at this step.
#[tactic(auto, using(crate::proofs::GuestSteps::waiting_word, crate::proofs::GuestSteps::holds_slot))]
pub(crate) fn claim(
    table: &PortTable,
    seat: &mut TableSeat,
    old: PortStage,
) -> Result<Job, PortStage>
    requires id { IsSeatOf table.now.shared.table_id seat.old.table_id }
    requires me { (seat.old.me.0.role ≡ Worker) × (seat.old.me.1 ≡ []) }
    requires table_name { seat.old.me.0.table_name ≡ name_of_table table.now.shared.table_id }
    requires old { is_waiting old ≡ true }
    ensures id { IsSeatOf table.now.shared.table_id seat.new.table_id }
    ensures result { ClaimsWaiting old seat.old.me.0 seat.new.me result }
{
    let old_word = word_of_stage(old);
    let word = set_claimed(table, seat, old_word);
    if word != old_word {
        return Err(stage_of_word(word));
    }
    match table.shared.exchange(seat, SLOT, None) {
        Some(SlotContent::Waiting(job, note)) => {
            let job = add_claimed(table, seat, note, job);
            Ok(Job {
                cancelled: matches!(old, PortStage::Cancelled),
                ..job
            })
        }
        _ => unreachable!(),
    }
}

/// Adds the entry of an answer that the worker is to post, while it holds the slot.
fn add_posted<E: GivenAnswer>(table: &PortTable, seat: &mut TableSeat, _answer: &Answer)
    requires id { IsSeatOf table.now.shared.table_id seat.old.table_id }
    requires me { (seat.old.me.0.role ≡ Worker) × (seat.old.me.0.phase ≡ Holding) }
    requires number { last_number seat.old.me.0.jobs ≡ E.answer.number }
    ensures id { IsSeatOf table.now.shared.table_id seat.new.table_id }
    ensures me { seat.new.me ≡ (with_posted E.answer seat.old.me.0, seat.old.me.1) }
{
    table.shared.load::<AddPosted<E>>(seat, WORD);
}

/// Adds the answer to the worker's list, puts it into the slot with a note of that list, and stores the word.
pub(crate) fn post(table: &PortTable, seat: &mut TableSeat, answer: Answer)
    requires id { IsSeatOf table.now.shared.table_id seat.old.table_id }
    requires me { (seat.old.me.0.role ≡ Worker) × (seat.old.me.0.phase ≡ Holding) × (seat.old.me.1 ≡ slot_with None) }
    requires table_name { seat.old.me.0.table_name ≡ name_of_table table.now.shared.table_id }
    requires number { last_number seat.old.me.0.jobs ≡ answer.number }
    ensures id { IsSeatOf table.now.shared.table_id seat.new.table_id }
    ensures me { seat.new.me ≡ (away (with_posted answer seat.old.me.0), []) }
{
    add_posted::<Brand>(table, seat, &answer);
    let note = table.shared.split_seat::<PostedNote>(seat).into_badge();
    drop(
        table
            .shared
            .exchange(seat, SLOT, Some(SlotContent::Answered(answer, note))),
    );
    table.shared.store::<Give>(seat, WORD, ANSWERED);
}

/// Joins the worker's seat into the guest's, and learns from the rule how their lists are related. A worker that holds the slot
/// gives it back first, since a seat is joined without a slot.
pub(crate) fn close(table: &PortTable, mut guest: TableSeat, mut worker: TableSeat) -> TableSeat
    requires id { IsSeatOf table.now.shared.table_id guest.table_id × (worker.table_id ≡ guest.table_id) }
    requires guest { (guest.me.0.role ≡ Guest) × (is_between guest.me.0.phase ≡ true) }
    requires worker { (worker.me.0.role ≡ Worker) × (is_between worker.me.0.phase ≡ true) × (worker.me.1 ≡ slots_of worker.me.0.phase) }
    ensures me { result.me.0 ≡ closed guest.me.0 (away worker.me.0) }
    ensures lists_agree { ListsAgree guest.me.0.jobs worker.me.0.jobs worker.me.0.answers guest.me.0.answers }
{
    table.shared.load::<LeaveSlot>(&mut worker, WORD);
    table.shared.join_seat::<Close>(&mut guest, worker);
    table.shared.load::<Compare>(&mut guest, WORD);
    guest
}
