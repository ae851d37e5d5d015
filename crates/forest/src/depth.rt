//! Refusal 7 of frames in any order. A frame's user is the frame that has it as a child.
ghost use Rattle.std.specs.Prelude.{◌≡◌, suc, ◌<◌, replicate, None};
ghost use Rattle.language.specs.Kinds.{children};
ghost use Rattle.language.specs.Limits.{most_lines, most_depth};
ghost use Rattle.text.specs.Frames.{frames_of};
ghost use Rattle.program.specs.Inner.Children.{over_children};
ghost use Rattle.drawing.specs.Inner.Finds.{tree_fault_at, shape_fault_at, depth_fault_at};
ghost use Rattle.forest.specs.Inner.Climbs.{with_user, users_of, climbs, UsersInside};

use language::frame::Frame;
use language::limit::{MOST_DEPTH, MOST_LINES};
use layout::lines::Lines;
use program::frames::{child_numbers, frame_at};

// Each array of users has for each frame its user's number plus 1, or this. A number and no
// `Option<u16>`, which would make the array twice as long: 2 KB more of the stack's 16 KB.
const NO_USER: u16 = 0;

// The user of v is noted. A number after the last frame has none.
#[tactic(auto, using(crate::proofs::UserArray::note_laws))]
fn note_user(users: &mut [u16; MOST_LINES], user: u16, v: u16)
    ensures { users.new ≡ with_user user users.old v }
{
    let j = usize::from(v);
    if j < MOST_LINES {
        users[j] = user;
    }
}

fn note_users(users: &mut [u16; MOST_LINES], user: u16, f: Frame)
    ensures { users.new ≡ over_children (with_user user) users.old (children f) }
{
    for v in child_numbers(f) {
        note_user(users, user, v);
    }
}

// In the array that is lent no user is noted yet. That each user is inside is said for the closure
// of `depth_fault`.
#[tactic(auto, using(crate::proofs::UserArray::noting_laws))]
fn users_of(lines: Lines, users: &mut [u16; MOST_LINES])
    requires { users.old ≡ replicate most_lines 0 }
    ensures noted { users.new ≡ users_of (frames_of lines.entry.words.now) }
    ensures inside { UsersInside users.new }
{
    for i in 0..lines.words.len() {
        let f = frame_at(lines.words, i);
        note_users(users, (i + 1) as u16, f);
    }
}

// Over frame j more than 24 users stand one above the other.
#[tactic(auto, using(crate::proofs::Climbing::climb_laws))]
fn is_deep(users: &[u16; MOST_LINES], j: usize) -> bool
    requires { (j < most_lines) × UsersInside users.now }
    ensures { result ≡ climbs users.now (suc most_depth) j }
{
    let mut at = j;
    for _above in 0..MOST_DEPTH + 1 {
        let user = users[at];
        if user == NO_USER {
            return false;
        }
        at = usize::from(user - 1);
    }
    true
}

// The lowest frame deeper than 24. Where the frames form trees of the right shape, each has one
// user at most, and the way from user to user ends in a module, which has none: a frame's depth is
// how many users are above it.
pub(crate) fn depth_fault(lines: Lines) -> Option<u16>
    requires { (tree_fault_at (frames_of lines.words.now) ≡ None)
        × (shape_fault_at (frames_of lines.words.now) ≡ None) }
    ensures { result ≡ depth_fault_at (frames_of lines.entry.words.now) }
{
    let mut users = [NO_USER; MOST_LINES];
    users_of(lines, &mut users);
    (0..lines.words.len() as u16).find(|i| is_deep(&users, usize::from(*i)))
}
