//! The end of a port.
ghost use Rattle.std.specs.Prelude.{◌≡◌, Some, map, option_map};
ghost use Rattle.crb_shared.specs.Agreement.{IsSubsequence, LacksAtMostLast, ListsAgree};
ghost use Rattle.crb_shared.specs.Ends.{guest_view, worker_view};
ghost use Rattle.crb_shared.specs.Entries.{of_job, of_answer, entry_number, known_list};

use crate::ends::{GuestEnd, WorkerEnd};
use crate::lists::{ListKind, Lists, Numbers};
use crate::steps;

/// Brings the two ends of one port together, and says what went through it. A job of which `cancel` answered true is
/// cancelled in `queued`, so that it isn't in `taken` as one that isn't. An answer that `pull` brought back is collected.
#[tactic(auto, using(crate::proofs::Appending::jobs_entries, crate::proofs::Appending::numbers_entries))]
pub fn close(guest: GuestEnd, worker: WorkerEnd) -> Lists
    requires one_port { (guest_view guest).which ≡ (worker_view worker).which }
    ensures queued { option_map (map of_job) (guest_view guest).queued ≡ Some result.queued }
    ensures taken { option_map (map of_job) (worker_view worker).claimed ≡ Some result.taken }
    ensures posted { option_map (map of_answer) (worker_view worker).posted ≡ Some result.posted }
    ensures collected { option_map (map of_answer) (guest_view guest).collected ≡ Some result.collected }
    ensures taken_are_queued { IsSubsequence result.taken result.queued }
    ensures posted_answer_taken { LacksAtMostLast (map entry_number result.posted) (map entry_number result.taken) }
    ensures collected_are_posted { LacksAtMostLast result.collected result.posted }
    ensures ends_agree { ListsAgree (known_list (guest_view guest).queued) (known_list (worker_view worker).claimed) (known_list (worker_view worker).posted) (known_list (guest_view guest).collected) }
{
    let (table, seat) = guest.into_parts();
    let other = worker.into_seat();
    let seat = steps::close(&table, seat, other);
    Lists {
        queued: Numbers::of(ListKind::Queued, &seat),
        taken: Numbers::of(ListKind::Taken, &seat),
        posted: Numbers::of(ListKind::Posted, &seat),
        collected: Numbers::of(ListKind::Collected, &seat),
    }
}
