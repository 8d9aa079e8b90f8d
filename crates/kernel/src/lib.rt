//! One frame on registers by value: the frame's own checks, and the function of its kind.
#![tactic(auto)]

ghost use Rattle.std.specs.Prelude.{◌≡◌, ◌*◌, ◌≤◌, take};
ghost use Rattle.sha256.specs.Hash.{sha256};
ghost use Rattle.paper.specs.Requests.{digests_in};
ghost use Rattle.paper.specs.Module.{answer_frame};
ghost use Rattle.replies.specs.Outcomes.{outcome_of, outcome_for};
ghost use Rattle.places.specs.Places.{bytes_at};
ghost use Rattle.kernel.specs.Fitting.{levels_in, path_request_in, answer_fitting};

use fields::{byte_at, digest_at, number_at};
use paper::{BEFORE_SIBLINGS, Kind, MOST_SIBLINGS, Refusal, Registers};
use places::{FIELDS, digest};
use replies::Outcome;

/// The n siblings of a path over the front of the array, by value (§10.1.4).
fn siblings(f: &[u8], n: usize) -> [[u8; 32]; MOST_SIBLINGS]
    requires { n ≤ 64 }
    ensures { take n result ≡ digests_in n (bytes_at f.now 74 (32 * n)) }
{
    let mut out = [[0u8; 32]; MOST_SIBLINGS];
    for i in 0..n {
        out[i] = digest_at(f, BEFORE_SIBLINGS + 32 * i);
    }
    out
}

/// A path's n, or 64 where it is more.
#[tactic(auto, unfolding(crate::specs::Fitting::levels_in))]
fn levels(f: &[u8]) -> usize
    ensures { result ≡ levels_in f.now }
{
    (byte_at(f, 65) as usize).min(MOST_SIBLINGS)
}

/// A path's frame: its siblings go by value.
#[tactic(auto, unfolding(crate::specs::Fitting::path_request_in, crate::specs::Fitting::levels_in))]
fn path(r: Registers, f: &[u8]) -> Outcome
    ensures { result ≡ outcome_for r 1 (path_request_in f.now) }
{
    let n = levels(f);
    tree_kinds::path(
        r,
        digest(f, FIELDS, 0),
        digest(f, FIELDS, 1),
        n,
        number_at(f, 66),
        siblings(f, n),
    )
}

/// A frame that passed its own checks, 2 and 3, as every frame that the reader writes. Any other is answered as what lies at its
/// kind's places, and by 2 where no kind has its number.
#[tactic(auto, unfolding(crate::specs::Fitting::answer_fitting, crate::specs::Fitting::request_in, paper::specs::Requests::known, paper::specs::Requests::kinds))]
pub fn answer_fitting(r: Registers, f: &[u8]) -> Outcome
    ensures { result ≡ answer_fitting r f.now }
{
    let Ok(kind) = Kind::try_from(byte_at(f, 0)) else {
        return replies::refuse(r, Refusal::Kind.number(), 0);
    };
    match kind {
        Kind::Path => path(r, f),
        Kind::Witness => tree_kinds::witness(r, f),
        Kind::Join => tree_kinds::join(r, f),
        Kind::Pair => tree_kinds::pair(r, f),
        Kind::Raise => tree_kinds::raise(r, f),
        Kind::Swap => ring_kinds::swap(r, f),
        Kind::First => ring_kinds::first(r, f),
        Kind::Place => ring_kinds::place(r, f),
        Kind::Turn => ring_kinds::turn(r, f),
        Kind::Chain => ring_kinds::chain(r, f),
        Kind::Adopt => list_kinds::adopt(r, f),
        Kind::Set => list_kinds::set_record(r, f),
        Kind::Clear => list_kinds::clear_record(r, f),
        Kind::Ask => question_kinds::ask(r, f),
        Kind::AskNone => question_kinds::ask_none(r, f),
        Kind::Open => list_kinds::unlock(r, f),
    }
}

/// One frame, well formed or not.
#[tactic(auto, using(crate::proofs::Frames::frame_refused, crate::proofs::Frames::frame_accepted))]
pub fn answer(r: Registers, frame: &[u8]) -> Outcome
    ensures { result ≡ outcome_of (answer_frame sha256 r frame.now) }
{
    if let Some(refusal) = lines::frame_refusal(frame) {
        return replies::refuse(r, refusal.number(), 0);
    }
    answer_fitting(r, frame)
}
