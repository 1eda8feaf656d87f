//! What was solved and is not collected yet.

ghost use Rattle.std.specs.Prelude.{ℕ, ◌≡◌, ◌+◌, ◌≤◌, true, ◌<◌, length, vec_capacity, slice_get, sum_by, count_by, Some, IfSome, IfNone};
ghost use Rattle.mate_jobs.specs.Jobs.{Task};
ghost use Rattle.mate_desk.specs.Content.{is_finished, has_task};
ghost use Rattle.mate_desk.specs.inside.Keeping.{task_of, finished_by};

use crate::entries::Entry;
use mate_jobs::Done;

/// Where what was solved of a record stands.
fn place_of(solved: &[Done], entry: &Entry) -> Option<usize>
    ensures none { IfNone result (count_by (λ done. has_task done entry.now) solved.now ≡ 0) }
    ensures some { IfSome result (λ place. (done : Task) → slice_get solved.now place ≡ Some done → done ≡ task_of entry.now) }
    ensures inside { IfSome result (λ place. place < length solved.now) }
{
    for (place, done) in solved.iter().enumerate() {
        if entry.is_solved_by(done) {
            return Some(place);
        }
    }
    None
}

/// Takes out what was solved of a finished record.
pub(crate) fn take_solved(entry: &Entry, solved: &mut Vec<Done>) -> Done
    requires finished { is_finished entry.now.phase ≡ true }
    requires there { (f : Task → ℕ) → finished_by f entry.now ≤ sum_by f solved.old.items }
    ensures own { result ≡ task_of entry.now }
    ensures gone { (f : Task → ℕ) → sum_by f solved.old.items ≡ sum_by f solved.new.items + finished_by f entry.now }
    ensures capacity { vec_capacity solved.new ≡ vec_capacity solved.old }
{
    entry.has_own_task();
    let Some(place) = place_of(solved, entry) else {
        unreachable!()
    };
    solved.swap_remove(place)
}
