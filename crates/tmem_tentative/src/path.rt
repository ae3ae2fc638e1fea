// The place of a run in its tree.

ghost use Rattle.std.specs.Prelude.{◌≡◌, ◌<◌, [], ◌∷◌, length, None, MatchOption};

use std::marker::Model;
use tmem_tree::MAX_DEPTH;

/// The children that lead to a place in a tree, from the root on. They are held in place, the last one last, so that the
/// first is put and taken at no cost.
#[derive(Drop)]
pub(crate) struct Path {
    // those before `top` are no part of it
    items: [usize; PATH_ROOM],
    top: usize,
}

// A path has no entry for the leaf that it leads to.
const PATH_ROOM: usize = MAX_DEPTH as usize;

impl Model for Path {
    ghost use Rattle.std.specs.Prelude.{ℕ, List, ◌≤◌, drop};

    ghost Value = { List ℕ };

    ghost view = { λ p. drop p.top p.items };

    ghost invariant = { λ p. p.top ≤ 32 };
}

impl Path {
    // The start of a tree.
    pub(crate) fn new() -> Path
        ensures { result ≡ [] }
    {
        Path {
            items: [0; PATH_ROOM],
            top: PATH_ROOM,
        }
    }

    // Puts a child before the first.
    pub(crate) fn push(&mut self, child: usize)
        requires { length self.old < 32 }
        ensures { self.new ≡ child ∷ self.old }
    {
        self.top -= 1;
        self.items[self.top] = child;
    }

    // Takes the first child, unless this is the start of a tree.
    pub(crate) fn pop(&mut self) -> Option<usize>
        ensures { MatchOption result ((self.old ≡ []) × (self.new ≡ [])) (λ child. self.old ≡ child ∷ self.new) }
    {
        if self.top == PATH_ROOM {
            return None;
        }
        self.top += 1;
        Some(self.items[self.top - 1])
    }

    // Goes back to the start of the tree.
    pub(crate) fn clear(&mut self)
        ensures { self.new ≡ [] }
    {
        self.top = PATH_ROOM;
    }
}
