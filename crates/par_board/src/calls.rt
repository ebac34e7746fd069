//! The calls on a node, each a few atomic steps on its word.
ghost use Rattle.std.specs.Prelude.{◌≡◌, ◌≢◌, ℕ, ◌+◌, ◌*◌, ◌<◌, ◌≤◌, [], ◌∷◌, length, Some, None, false};
ghost use Rattle.par_task.specs.Spans.{IsSpan};
ghost use Rattle.par_board.specs.Words.{code, state_of, lo_of, hi_of, pack};
ghost use Rattle.par_board.specs.Loads.{IsPiece};
ghost use Rattle.par_board.specs.Rule.{Plain};
ghost use Rattle.par_board.specs.Calls.{looks, OwnsTree, HasOpen, Holds, IsOffered, IsClaimed, IsElsewhere, IsFinished, IsCollected, IsNotYet, MatchClaim, MatchCollect};

use crate::answers::{Claim, Collect, NodeState};
use crate::board::{Board, BoardSeat};
use crate::load::Load;
use crate::rule::{Close, Fill, Finish, Lay, Lift, Look, Offer, Take, TakeBack, View};
use atomic_table::Seat;
use par_laws::Shown;
use par_splitter::Splitter;
use par_task::Job;

// A word is lo * 2^34 + hi * 2^4 + state.
fn pack(lo: u32, hi: u32, state: u8) -> u64
    requires { (lo ≤ 4194304) × (hi ≤ 4194304) × (state < 16) }
    ensures { result ≡ pack lo hi state }
{
    u64::from(lo) * (1 << 34) + u64::from(hi) * 16 + u64::from(state)
}

fn state_in(word: u64) -> NodeState
    requires { state_of word ≤ 6 }
    ensures { code result ≡ state_of word }
{
    match word % 16 {
        0 => NodeState::Free,
        1 => NodeState::Filling,
        2 => NodeState::Offered,
        3 => NodeState::Taken,
        4 => NodeState::Done,
        5 => NodeState::Merging,
        _ => NodeState::Merged,
    }
}

fn span_in(word: u64) -> (u32, u32)
    requires { word < 18446744073709551616 }
    ensures { (result.0 ≡ lo_of word) × (result.1 ≡ hi_of word) }
{
    ((word / (1 << 34)) as u32, (word / 16 % (1 << 30)) as u32)
}

impl<'a, J: Job> Board<'a, J> {
    // Takes the load out of the slot that is out with the seat.
    fn take_out(&self, seat: &mut Seat<Option<Load<J>>, View<J>>, k: u32) -> Load<J>
        requires board { seat.old.table_id ≡ self.now.of.table }
        requires load { (load : Plain J) × (seat.old.me.1 ≡ (k, Some load) ∷ []) }
        ensures same { (seat.new.table_id ≡ seat.old.table_id) × (seat.new.id ≡ seat.old.id) }
        ensures out { (seat.new.me ≡ (seat.old.me.0, (k, None) ∷ [])) × (seat.old.me.1 ≡ (k, Some result) ∷ []) }
    {
        match self.table.shared.exchange(seat, k as usize, None) {
            Some(load) => load,
            None => unreachable!(),
        }
    }

    // Puts a load into the empty slot that is out with the seat.
    fn put_in(&self, seat: &mut Seat<Option<Load<J>>, View<J>>, k: u32, load: Load<J>)
        requires board { seat.old.table_id ≡ self.now.of.table }
        requires empty { seat.old.me.1 ≡ (k, None) ∷ [] }
        ensures same { (seat.new.table_id ≡ seat.old.table_id) × (seat.new.id ≡ seat.old.id) }
        ensures put { seat.new.me ≡ (seat.old.me.0, (k, Some load) ∷ []) }
    {
        match self.table.shared.exchange(seat, k as usize, Some(load)) {
            Some(_) => unreachable!(),
            None => {}
        }
    }

    /// The state that the node is in, by one load. Constant time, and takes no memory.
    pub fn state(&self, seat: &mut BoardSeat<J>, k: u32) -> NodeState
        requires of { seat.old.of ≡ self.now.of }
        requires node { (0 < k) × (k < 2048) }
        ensures of { seat.new.of ≡ self.now.of }
        ensures read { (read : ℕ) × (code result ≡ state_of read) × (seat.new ≡ looks k read seat.old) }
    {
        let shared = &self.table.shared;
        state_in(shared.load::<Look>(&mut seat.seat, k as usize))
    }

    /// Offers a node to whoever claims it, with the splitter over its span, and opens it for the seat. The seat must own
    /// the node and all nodes below it, all free; it owns those below no more. Another seat may have claimed the node
    /// when the call returns. Constant time, and takes no memory.
    pub fn offer(&self, seat: &mut BoardSeat<J>, k: u32, part: J::Split)
        requires of { seat.old.of ≡ self.now.of }
        requires node { (0 < k) × (k < 2048) }
        requires tree { OwnsTree k seat.old }
        requires part { IsSpan (J.source self.now.job) (J.Split.lo part) (J.Split.items part) }
        ensures of { seat.new.of ≡ self.now.of }
        ensures offered { IsOffered k (J.Split.lo part) (J.Split.lo part + length (J.Split.items part)) seat.old seat.new }
    {
        let (lo, hi) = part.span();
        let shared = &self.table.shared;
        let word = pack(lo, hi, 1);
        shared.compare_exchange::<Fill>(&mut seat.seat, k as usize, 0, word);
        self.put_in(&mut seat.seat, k, Load::of_split(self.job, lo, hi, part));
        shared.compare_exchange::<Offer>(&mut seat.seat, k as usize, word, word + 1);
    }

    /// Claims a node. `Mine` comes exactly where the deciding step found `Offered`: the seat then holds the node, and owns
    /// all nodes below it, free; the answer has the source's splitter over the node's span. `Elsewhere` has the state that
    /// the deciding step read, and nothing changed. The deciding step is a load where that reads another state than
    /// `Offered`, and else the step that claims. Constant time, and takes no memory.
    pub fn claim(&self, seat: &mut BoardSeat<J>, k: u32) -> Claim<J::Split>
        requires of { seat.old.of ≡ self.now.of }
        requires node { (0 < k) × (k < 2048) }
        ensures of { seat.new.of ≡ self.now.of }
        ensures claim { MatchClaim result
            (λ split. (lo : ℕ) × (hi : ℕ) × IsClaimed k lo hi seat.old seat.new × IsPiece J.Split.items J.Split.lo (J.source self.now.job) lo hi split)
            (λ state. IsElsewhere k state seat.old seat.new) }
    {
        let shared = &self.table.shared;
        let word = shared.load::<Look>(&mut seat.seat, k as usize);
        if word % 16 != 2 {
            return Claim::Elsewhere(state_in(word));
        }
        let found = shared.compare_exchange::<Take>(&mut seat.seat, k as usize, word, word + 1);
        if found != word {
            return Claim::Elsewhere(state_in(found));
        }
        let load = self.take_out(&mut seat.seat, k);
        shared.load::<Lay>(&mut seat.seat, k as usize);
        let (lo, hi) = span_in(word);
        Claim::Mine(load.into_split(self.job, lo, hi))
    }

    /// Finishes a node that the seat holds, with the part that is good over its span, and holds it no more.
    /// Constant time, and takes no memory.
    pub fn finish(&self, seat: &mut BoardSeat<J>, k: u32, part: J::Part)
        requires of { seat.old.of ≡ self.now.of }
        requires node { (0 < k) × (k < 2048) }
        requires held { (lo : ℕ) × (hi : ℕ) × Holds k lo hi seat.old × J.good self.now.job lo hi (J.Part.shown part) }
        ensures of { seat.new.of ≡ self.now.of }
        ensures finished { IsFinished k seat.old seat.new }
    {
        let shared = &self.table.shared;
        let word = shared.load::<Lift>(&mut seat.seat, k as usize);
        let (lo, hi) = span_in(word);
        self.put_in(&mut seat.seat, k, Load::of_part(self.job, lo, hi, part));
        shared.compare_exchange::<Finish>(&mut seat.seat, k as usize, word, word + 1);
    }

    /// Takes the part of a node back that the seat has open. `Got` comes exactly where its load read `Done`: the part is
    /// good over the node's span, and the node is merged. `NotYet` comes where that load read `Offered` or `Taken`, and
    /// nothing changed. Constant time, and takes no memory.
    pub fn collect(&self, seat: &mut BoardSeat<J>, k: u32) -> Collect<J::Part>
        requires of { seat.old.of ≡ self.now.of }
        requires node { (0 < k) × (k < 2048) }
        requires open { (lo : ℕ) × (hi : ℕ) × HasOpen k lo hi seat.old }
        ensures of { seat.new.of ≡ self.now.of }
        ensures collect { MatchCollect result
            (λ part. IsCollected k seat.old seat.new × ((lo hi : ℕ) → HasOpen k lo hi seat.old → J.good self.now.job lo hi (J.Part.shown part)))
            (IsNotYet k seat.old seat.new) }
    {
        let shared = &self.table.shared;
        let word = shared.load::<Look>(&mut seat.seat, k as usize);
        if word % 16 != 4 {
            return Collect::NotYet;
        }
        shared.compare_exchange::<TakeBack>(&mut seat.seat, k as usize, word, word + 1);
        let load = self.take_out(&mut seat.seat, k);
        let merging = word + 1;
        shared.compare_exchange::<Close>(&mut seat.seat, k as usize, merging, merging + 1);
        let (lo, hi) = span_in(word);
        Collect::Got(load.into_part(self.job, lo, hi))
    }
}
