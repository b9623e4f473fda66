//! The results of the workers, gathered.
ghost use Rattle.std.specs.Prelude.{◌≡◌, ◌<◌, ◌≤◌, ◌+◌, ◌↔◌, [], IsTrue, length, map, reverse, All, vec_len, vec_capacity};
ghost use Rattle.seat_history.specs.Histories.{StartsWith};
ghost use Rattle.seat_history.specs.Seats.{Settled};
ghost use Rattle.exchange_core.specs.Boards.{turns_of};
ghost use Rattle.segment_run.specs.Pools.{HasRoom};
ghost use Rattle.segment_run.specs.Workers.{after_joins};

use call_processor::{AnswerSink, WorkerBuffers, WorkerOutput};
use exchange_core::Switchboard;

/// Returns whether the parts of all workers are complete.
pub fn all_whole<T, K>(workers: &[WorkerOutput<T, K>]) -> bool
    ensures { IsTrue result ↔ All (λ f. IsTrue f.whole) workers.now }
{
    for output in workers {
        if !output.whole {
            return false;
        }
    }
    true
}

/// Joins the seats of all workers, the last first, and collects their buffers in this order.
pub fn gather<B: Switchboard, K: AnswerSink>(
    board: &B,
    seat: &mut B::Seat,
    workers: &mut Vec<WorkerOutput<B::Seat, K>>,
    used: &mut Vec<WorkerBuffers<K>>,
)
    requires seated { B.seated board.now seat.old × All (λ f. B.seated board.now f.seat) workers.old.items }
    requires chief { (B.known seat.old).number ≡ 0 }
    requires few { length workers.old.items ≤ 9 }
    requires room { HasRoom used.old }
    ensures seated { B.seated board.now seat.new }
    ensures seat { B.known seat.new ≡ after_joins (B.known seat.old) (map (λ f. B.known f.seat) workers.old.items) }
    ensures unused { used.new.items ≡ reverse (map (λ f. f.buffers) workers.old.items) }
    ensures begins { StartsWith (B.known seat.new).seen (B.known seat.old).seen }
    ensures fronts { All (λ f. StartsWith (B.known seat.new).seen (B.known f.seat).seen) workers.old.items }
    ensures settled { 0 < length workers.old.items → Settled (turns_of (B.board board.now)) (B.known seat.new) }
    ensures gone { (workers.new.items ≡ []) × (vec_capacity workers.new ≡ vec_capacity workers.old) }
    ensures kept { vec_capacity used.new ≡ vec_capacity used.old }
{
    while let Some(output) = workers.pop() {
        let WorkerOutput {
            seat: other,
            buffers,
            whole: _,
        } = output;
        board.join(seat, other);
        used.push_reserved(buffers);
    }
}
