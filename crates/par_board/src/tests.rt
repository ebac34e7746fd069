ghost use Rattle.std.specs.Prelude.{◌≡◌, ℕ, ◌+◌, ◌<◌, ◌≤◌, length, IfOk, IfSome, IsTrue};
ghost use Rattle.par_task.specs.Spans.{IsSpan};
ghost use Rattle.par_board.specs.Seen.{owned_free, owns_at, all_parts};
ghost use Rattle.par_board.specs.Calls.{HoldsNothing, joined};
ghost use Rattle.par_board.specs.Sharing.{OnlyTwo, HasCut, HasHalf, HasWhole, HasSecond};

use super::*;
use par_laws::{Memory, Never, Probe};
use par_signal::{SignalSeat, Signals};
use par_splitter::{Cut, RangeSplitter, Splitter, range_count};
use par_task::{Done, Job};
use std::alloc::Global;
use std::test::Fail;
use std::thread;
use std::thread::Threads;

/// Counts its items, and tests none.
#[derive(Drop)]
struct Count {
    source: RangeSplitter,
}

impl Job for Count {
    ghost use Rattle.std.specs.Prelude.{map};
    ghost use Rattle.par_laws.specs.declared.test.Verdict.TheVariants.{Fail};
    ghost use Rattle.par_task.specs.Marking.{no_test};
    ghost use Rattle.std.proofs.Common.{arith, sym, ◌∙◌};

    type Split = RangeSplitter;

    type Pred = Never;

    type Part = u32;

    ghost kind = { no_test };

    ghost source = { λ j. ⟦<RangeSplitter as Splitter>⟧.items j.source };

    ghost verdicts = { λ j. map (λ _. Fail) (⟦<RangeSplitter as Splitter>⟧.items j.source) };

    ghost good = { λ _ lo hi p. lo + p ≡ hi };

    ghost merges = { λ _ a b c. a + b ≡ c };

    fn leaf(
        &self,
        _alloc: Global,
        input: RangeSplitter,
        _probe: &mut Probe<'_, Never>,
        _signals: &Signals,
        _seat: &mut SignalSeat,
    ) -> Result<Done<u32>, Memory> {
        Ok(Done {
            part: input.remaining(),
            flag: self.source.remaining(),
        })
    }

    fn merge(&self, left: u32, right: u32) -> Result<u32, Memory> {
        left.checked_add(right).ok_or(Memory)
    }

    ghost joins = { λ _ lo mid hi a b c _ _ _ p q m. omega (arith, p, q, m) };

    ghost one_merge = { λ _ a b c d p q. sym p ∙ q };
}

// Offers node 1 and claims it, and offers its second half as node 3. Answers how many items node 1 has.
fn cut_off(
    board: &Board<'_, Count>,
    seat: &mut BoardSeat<Count>,
    whole: RangeSplitter,
) -> Option<u32>
    requires of { seat.old.of ≡ board.now.of }
    requires all { (m : ℕ) → m < 2048 → owns_at seat.old m ≡ owned_free }
    requires whole { IsSpan (⟦<RangeSplitter as Splitter>⟧.items board.now.job.source) (⟦<RangeSplitter as Splitter>⟧.lo whole) (⟦<RangeSplitter as Splitter>⟧.items whole) }
    ensures of { seat.new.of ≡ board.now.of }
    ensures cut { IfSome result (λ count. HasCut count seat.new.owns seat.new.holds × (seat.new.parts ≡ seat.old.parts)) }
{
    tree_laws();
    board.offer(seat, 1, whole);
    let Claim::Mine(mine) = board.claim(seat, 1) else {
        return None;
    };
    let count = mine.remaining();
    let Cut::Two(_, half) = mine.split() else {
        return None;
    };
    board.offer(seat, 3, half);
    Some(count)
}

// Claims node 3 from another seat. Answers how many items it has.
fn taken(board: &Board<'_, Count>, seat: &mut BoardSeat<Count>) -> Option<u32>
    requires of { seat.old.of ≡ board.now.of }
    requires bare { HoldsNothing seat.old × OnlyTwo seat.old.owns }
    ensures of { seat.new.of ≡ board.now.of }
    ensures taken { IfSome result (λ count. HasSecond count seat.new.owns seat.new.holds × (seat.new.parts ≡ seat.old.parts)) }
{
    let Claim::Mine(mine) = board.claim(seat, 3) else {
        return None;
    };
    Some(mine.remaining())
}

// The state of node 3 that a claim in vain found, which leaves the seat as it was but for its notes.
fn found(board: &Board<'_, Count>, seat: &mut BoardSeat<Count>) -> Option<NodeState>
    requires { seat.old.of ≡ board.now.of }
    ensures of { seat.new.of ≡ board.now.of }
    ensures same { IfSome result (λ _. (seat.new.owns ≡ seat.old.owns) × (seat.new.holds ≡ seat.old.holds) × (seat.new.parts ≡ seat.old.parts)) }
{
    match board.claim(seat, 3) {
        Claim::Mine(_) => None,
        Claim::Elsewhere(state) => Some(state),
    }
}

// Whether the part of node 3 is still to come.
fn waits(board: &Board<'_, Count>, seat: &mut BoardSeat<Count>, _count: u32) -> bool
    requires of { seat.old.of ≡ board.now.of }
    requires cut { HasCut _count seat.old.owns seat.old.holds }
    ensures of { seat.new.of ≡ board.now.of }
    ensures same { IsTrue result → (seat.new.owns ≡ seat.old.owns) × (seat.new.holds ≡ seat.old.holds) × (seat.new.parts ≡ seat.old.parts) }
{
    matches!(board.collect(seat, 3), Collect::NotYet)
}

// The part of node 3.
fn second_part(board: &Board<'_, Count>, seat: &mut BoardSeat<Count>, _count: u32) -> Option<u32>
    requires of { seat.old.of ≡ board.now.of }
    requires cut { HasCut _count seat.old.owns seat.old.holds }
    ensures of { seat.new.of ≡ board.now.of }
    ensures merged { IfSome result (λ _. HasHalf _count seat.new.owns seat.new.holds × (seat.new.parts ≡ seat.old.parts)) }
{
    match board.collect(seat, 3) {
        Collect::Got(part) => Some(part),
        Collect::NotYet => None,
    }
}

// Finishes node 1 and takes its part back.
fn whole_part(board: &Board<'_, Count>, seat: &mut BoardSeat<Count>, count: u32) -> Option<u32>
    requires of { seat.old.of ≡ board.now.of }
    requires half { HasHalf count seat.old.owns seat.old.holds }
    ensures of { seat.new.of ≡ board.now.of }
    ensures merged { IfSome result (λ _. HasWhole seat.new.owns × (seat.new.parts ≡ seat.old.parts)) }
{
    board.finish(seat, 1, count);
    match board.collect(seat, 1) {
        Collect::Got(part) => Some(part),
        Collect::NotYet => None,
    }
}

// The numbers 0 to 3.
fn four_items() -> Option<RangeSplitter>
    ensures place { IfSome result (λ s. ⟦<RangeSplitter as Splitter>⟧.lo s ≡ 0) }
    ensures few { IfSome result (λ s. length (⟦<RangeSplitter as Splitter>⟧.items s) ≡ 4) }
{
    if range_count(0, 4, 1) != 4 {
        return None;
    }
    let source = RangeSplitter::new(0, 4, 1);
    if source.remaining() != 4 {
        return None;
    }
    Some(source)
}

#[test]
fn a_node_is_claimed_and_collected_once(rt: HostRuntime) -> Result<(), Fail> {
    let Some(source) = four_items() else {
        panic!(rt; "four items")
    };
    let job = Count {
        source: source.dup(),
    };
    let (board, mut first) = Board::open(rt.alloc(), &job, 4)?;
    assert_eq!(rt; board.count(), board.job().source.remaining());
    assert_eq!(rt; board.state(&mut first, 3), NodeState::Free);
    let Some(count) = cut_off(&board, &mut first, source) else {
        panic!(rt; "node 1 is the seat's own")
    };
    assert!(rt; waits(&board, &mut first, count));
    let mut second = board.split_seat(rt.alloc(), &mut first)?;
    let Some(half) = taken(&board, &mut second) else {
        panic!(rt; "node 3 is offered")
    };
    let Some(state) = found(&board, &mut first) else {
        panic!(rt; "node 3 is claimed twice")
    };
    assert_eq!(rt; state, NodeState::Taken);
    board.finish(&mut second, 3, half);
    let Some(part) = second_part(&board, &mut first, count) else {
        panic!(rt; "node 3 is done")
    };
    assert_eq!(rt; part, 2);
    let Some(state) = found(&board, &mut second) else {
        panic!(rt; "node 3 is claimed again")
    };
    assert_eq!(rt; state, NodeState::Merged);
    let Some(part) = whole_part(&board, &mut first, count) else {
        panic!(rt; "node 1 is done")
    };
    assert_eq!(rt; part, 4);
    board.join_seat(&mut first, second)?;
    board.close(rt.alloc(), first)?;
    Ok(())
}

// Claims node 1. Answers the seat, and whether the node is its own.
fn claimed(board: &Board<'_, Count>, mut seat: BoardSeat<Count>) -> (BoardSeat<Count>, bool)
    requires { seat.of ≡ board.now.of }
    ensures { result.0.of ≡ board.now.of }
{
    let mine = matches!(board.claim(&mut seat, 1), Claim::Mine(_));
    (seat, mine)
}

// Two threads claim one node. Answers how many of them have it.
fn race<R: Threads + Sync>(
    rt: &R,
    alloc: Global,
    job: &Count,
    whole: RangeSplitter,
) -> Result<u32, Memory>
    requires few { length (⟦<RangeSplitter as Splitter>⟧.items job.now.source) ≤ 4194304 }
    requires whole { IsSpan (⟦<RangeSplitter as Splitter>⟧.items job.now.source) (⟦<RangeSplitter as Splitter>⟧.lo whole) (⟦<RangeSplitter as Splitter>⟧.items whole) }
{
    let (board, mut one) = Board::open(alloc, job, job.source.remaining())?;
    board.points();
    board.offer(&mut one, 1, whole);
    let two = board.split_seat(alloc, &mut one)?;
    let shared = &board;
    let ((_, first), (_, second)) = thread::join(
        rt,
        move ||
            requires { one.of ≡ shared.now.of }
        { claimed(shared, one) },
        move ||
            requires { two.of ≡ shared.now.of }
        { claimed(shared, two) },
    );
    Ok(u32::from(first) + u32::from(second))
}

#[test]
fn of_two_threads_one_claims_the_node(rt: HostRuntime) -> Result<(), Fail> {
    for _ in 0..500 {
        let Some(source) = four_items() else {
            panic!(rt; "four items")
        };
        let job = Count {
            source: source.dup(),
        };
        assert_eq!(rt; race(&rt, rt.alloc(), &job, source)?, 1);
    }
    Ok(())
}
