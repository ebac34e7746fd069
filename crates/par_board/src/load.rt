//! What lies in a node's slot.
ghost use Rattle.std.specs.Prelude.{◌≡◌, true, false, Some};
ghost use Rattle.par_board.specs.Loads.{IsPiece};

use either::{Either, Left, Right};
use par_laws::Shown;
use par_splitter::Splitter;
use par_task::Job;
use std::marker::Model;
use std::snapshot::Snapshot;

/// A splitter or a part of a job, over a span: the splitter is the source over that span, and the part is good over it.
/// Contracts see the job's plain data, the span, and whether it is a part. Its job is a snapshot, so that it may cross threads
/// without the job.
#[derive(Drop)]
pub struct Load<J: Job> {
    job: Snapshot<J>,
    lo: u32,
    hi: u32,
    what: Either<J::Split, J::Part>,
}

impl<J: Job> Model for Load<J> {
    ghost use Rattle.std.specs.Prelude.{ℕ, Bool, Option, Some};

    ghost Value = { Option J × ℕ × ℕ × Bool };

    ghost use Rattle.par_board.specs.Loads.{is_part, IsPiece, Sound};

    ghost view = { λ l. (Some l.job.value, l.lo, l.hi, is_part l.what) };

    ghost invariant = { λ l. Sound (IsPiece J.Split.items J.Split.lo (J.source l.job.value) l.lo l.hi) J.Part.shown (J.good l.job.value l.lo l.hi) l.what };
}

impl<J: Job> Load<J> {
    // A splitter over its span. Constant time.
    pub(crate) fn of_split(job: &J, lo: u32, hi: u32, split: J::Split) -> Load<J>
        requires { IsPiece J.Split.items J.Split.lo (J.source job.now) lo hi split }
        ensures { result ≡ (Some job.now, lo, hi, false) }
    {
        Load {
            job: Snapshot::of(job),
            lo,
            hi,
            what: Left(split),
        }
    }

    // A part over its span. Constant time.
    pub(crate) fn of_part(job: &J, lo: u32, hi: u32, part: J::Part) -> Load<J>
        requires { J.good job.now lo hi (J.Part.shown part) }
        ensures { result ≡ (Some job.now, lo, hi, true) }
    {
        Load {
            job: Snapshot::of(job),
            lo,
            hi,
            what: Right(part),
        }
    }

    // The splitter, where it is one. Constant time.
    pub(crate) fn into_split(self, job: &J, lo: u32, hi: u32) -> J::Split
        requires { self ≡ (Some job.now, lo, hi, false) }
        ensures { IsPiece J.Split.items J.Split.lo (J.source job.now) lo hi result }
    {
        let Load {
            job: _,
            lo: _,
            hi: _,
            what,
        } = self;
        match what {
            Left(split) => split,
            Right(_) => unreachable!(),
        }
    }

    // The part, where it is one. Constant time.
    pub(crate) fn into_part(self, job: &J, lo: u32, hi: u32) -> J::Part
        requires { self ≡ (Some job.now, lo, hi, true) }
        ensures { J.good job.now lo hi (J.Part.shown result) }
    {
        let Load {
            job: _,
            lo: _,
            hi: _,
            what,
        } = self;
        match what {
            Left(_) => unreachable!(),
            Right(part) => part,
        }
    }
}
