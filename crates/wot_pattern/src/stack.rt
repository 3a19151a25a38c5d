//! Two functions over a vector that serves as a stack with reserved room: one pops a value or a default, the other
//! pushes a value. Both passes of the matcher, `advance` and `closure`, keep what they computed for parts on such a
//! stack, and `specs/Passes.antt` says what they find there.
ghost use Rattle.std.specs.Prelude.{◌≡◌, ◌+◌, ◌<◌, ◌≤◌, ◌∷◌, reverse, vec_len, vec_capacity};
ghost use Rattle.wot_pattern.specs.Passes.{top_or, below};

/// Pops the top of a stack, or returns `none` if the stack is empty.
pub fn take_or<T: Copy + Drop>(stack: &mut Vec<T>, none: T) -> T
    ensures top { result ≡ top_or none (reverse stack.old.items) }
    ensures below { reverse stack.new.items ≡ below (reverse stack.old.items) }
    ensures fewer { vec_len stack.new ≤ vec_len stack.old }
    ensures one_fewer { 0 < vec_len stack.old → vec_len stack.new + 1 ≡ vec_len stack.old }
    ensures room { vec_capacity stack.new ≡ vec_capacity stack.old }
{
    match stack.pop() {
        Some(top) => top,
        None => none,
    }
}

/// Pushes a value onto a stack that has room for it.
pub fn put<T: Drop>(stack: &mut Vec<T>, value: T)
    requires { vec_len stack.old < vec_capacity stack.old }
    ensures items { reverse stack.new.items ≡ value ∷ reverse stack.old.items }
    ensures longer { vec_len stack.new ≡ vec_len stack.old + 1 }
    ensures room { vec_capacity stack.old ≤ vec_capacity stack.new }
{
    let _ = stack.push(value);
}
